// What reading a sheet is put together from: a refusal and its place, the end of the sheet, the settings with one network more or with field 07.
#![tactic(auto)]

ghost use Rattle.std.specs.Prelude.{◌≡◌, ◌<◌, ◌^◌};
ghost use Rattle.sheet.specs.Reading.{pushed, amended, first_zero, number_in, place_of, refused_at, closed};

use entries::{Entry, Fault};
use fields::Field;
use settings::{Network, Settings};
use sheet::Reading;

// S29: how far into the value the first of three times stands that is 0.
#[tactic(auto, unfolding(sheet::specs::Reading::first_zero))]
fn first_zero(short: u16, long: u16, ensure: u16) -> usize
    ensures { result ≡ first_zero short long ensure }
{
    if short == Network::NO_TIME {
        return Entry::SHORT_TIME;
    }
    if long == Network::NO_TIME {
        return Entry::LONG_TIME;
    }
    if ensure == Network::NO_TIME {
        return Entry::ENSURE_TIME;
    }
    0
}

// S29: how far into its value the number stands for which an entry is out of range.
fn number_in(entry: Entry) -> usize
    ensures { result ≡ number_in entry }
{
    match entry {
        Entry::Times {
            short,
            long,
            ensure,
        } => first_zero(short, long, ensure),
        _ => 0,
    }
}

// S24, S28, S29: where a refused field is pointed at, whose tag stands at a place.
fn place_of(fault: Fault, entry: Entry, at: usize) -> usize
    requires { place_of fault entry at < 2 ^ 64 }
    ensures { result ≡ place_of fault entry at }
{
    match fault {
        Fault::WrongLength => at + Field::LENGTH,
        Fault::OutOfRange => at + Field::HEAD + number_in(entry),
        _ => at,
    }
}

#[tactic(auto, unfolding(sheet::specs::Reading::refused_at))]
fn refuse(fault: Fault, place: usize) -> Reading
    ensures { result ≡ refused_at fault place }
{
    Reading {
        answer: Err(fault),
        place,
        settings: Settings::blank(),
    }
}

// S25, R5: the end of a sheet, at a place.
#[tactic(auto, unfolding(sheet::specs::Reading::closed))]
pub fn close_sheet(settings: Settings, at: usize) -> Reading
    ensures { result ≡ closed settings at }
{
    if settings.count == 0 {
        return refuse(Fault::Empty, 0);
    }
    Reading {
        answer: Ok(()),
        place: at,
        settings,
    }
}

// The settings with one network more.
// A changed copy: one slot is new, which a literal cannot say.
#[tactic(auto, unfolding(sheet::specs::Reading::pushed))]
pub fn push_network(settings: Settings, network: Network) -> Settings
    requires { settings.count < 8 }
    ensures { result ≡ pushed settings network }
{
    let mut next = settings;
    next.networks[settings.count as usize] = network;
    next.count += 1;
    next
}

// S27: the settings, of which the last network has field 07.
// The index stays: by `last_mut` there would be a branch for no network, which never comes.
pub fn amend_network(settings: Settings) -> Settings
    requires { 0 < settings.count }
    ensures { result ≡ amended settings }
{
    let last = lists::in_use(&settings.networks, settings.count).len() - 1;
    let mut next = settings;
    next.networks[last] = grammar::add_relation(settings.networks[last]);
    next
}

// A field of a sheet that is refused, at its place.
pub fn refuse_entry(fault: Fault, entry: Entry, at: usize) -> Reading
    requires { place_of fault entry at < 2 ^ 64 }
    ensures { result ≡ refused_at fault (place_of fault entry at) }
{
    refuse(fault, place_of(fault, entry, at))
}
