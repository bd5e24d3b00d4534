// A new manager and its sheet.
ghost use Rattle.std.specs.Prelude.{◌≡◌, length};
ghost use Rattle.sheet.specs.Writing.{buffer_after};
ghost use Rattle.slots.specs.Manager.{settings_of};
ghost use Rattle.slots.specs.Calls as calls;

use settings::Settings;
use sheet::{Reading, TooShort};
use slots::{CallRefusal, Manager, Outcome, Stage};

// A manager with no sheet.
#[tactic(auto, unfolding(settings::specs::Settings::blank_settings))]
pub fn new() -> Manager
    ensures { result ≡ calls.new_manager }
{
    Manager {
        stage: Stage::Empty,
        listening: false,
        settings: Settings::blank(),
        states: [slots::blank_state(); Settings::MOST_NETWORKS],
    }
}

// R19, L5: a manager with these settings, whatever it had before; whether it listens stays.
fn load(manager: Manager, settings: Settings) -> Manager
    ensures { result ≡ calls.loaded manager settings }
{
    Manager {
        stage: Stage::Loaded,
        settings,
        states: [slots::blank_state(); Settings::MOST_NETWORKS],
        ..manager
    }
}

// R3 to R5: what a reading of a sheet gives.
fn after_reading(manager: Manager, reading: Reading) -> Outcome
    ensures { result ≡ calls.after_reading manager reading reading.answer }
{
    match reading.answer {
        Ok(()) => Outcome {
            count: reading.settings.count as usize,
            place: reading.place,
            ..Outcome::accept(load(manager, reading.settings))
        },
        Err(fault) => Outcome {
            place: reading.place,
            ..Outcome::refuse(manager, Err(CallRefusal::Sheet(fault)))
        },
    }
}

// R8, R19, R20: reads a sheet. Until the start that may be done again, and a refused reading leaves the former sheet in force.
pub fn read(manager: Manager, bytes: &[u8]) -> Outcome
    ensures { result ≡ calls.outcome manager (calls.read bytes.now) }
{
    match manager.stage {
        Stage::Empty | Stage::Loaded => after_reading(manager, reading::read(bytes)),
        Stage::Started => Outcome::refuse(manager, Err(CallRefusal::Running)),
    }
}

fn after_writing(manager: Manager, answer: Result<usize, TooShort>) -> Outcome
    ensures { result ≡ calls.after_writing manager answer }
{
    match answer {
        Ok(length) => Outcome {
            count: length,
            ..Outcome::accept(manager)
        },
        Err(TooShort) => Outcome::refuse(manager, Err(CallRefusal::TooShort)),
    }
}

fn write_sheet(manager: Manager, buffer: &mut [u8]) -> Outcome
    ensures { (result ≡ calls.writing_of manager (length buffer.old))
        × (buffer.new ≡ buffer_after (settings_of manager) buffer.old) }
{
    after_writing(manager, writing::write(manager.settings, buffer))
}

// R7, R18, H4: writes the sheet into a lent buffer, before and after the start.
pub fn write(manager: Manager, buffer: &mut [u8]) -> Outcome
    ensures { calls.Writes manager buffer.old result buffer.new }
{
    match manager.stage {
        Stage::Empty => Outcome::refuse(manager, Err(CallRefusal::NotReady)),
        Stage::Loaded | Stage::Started => write_sheet(manager, buffer),
    }
}
