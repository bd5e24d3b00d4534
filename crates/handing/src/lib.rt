// What a move of a network hands out, onto a tray.
#![tactic(auto)]

ghost use Rattle.std.specs.Prelude.{◌≡◌, map};
ghost use Rattle.records.specs.Tray.{HasRoom, Handed};
ghost use Rattle.settings.specs.Settings.{controllers_of, listed};
ghost use Rattle.handing.specs.Handing.{round_record, errand_record, requests, entering, going_down, down_notices, move_records, recovery, reset};
ghost use Rattle.steps.specs.Steps.{online_phase};
ghost use Rattle.handing.specs.Handing.{online_in};

use records::{ControllerMode, EventStatus, Mode, Notice, PduMode, Record, TransceiverMode, Tray};
use settings::Network;
use steps::{Ask, Move, Phase, Step};

// A record for each controller of a network: a request, or its PDU mode. It and the next stay enums: a closure in their place would be told apart in
// contracts by what holds of each definition that it meets, and each caller would answer for its own.
#[derive(Clone, Copy, Debug, PartialEq, Eq)]
pub enum Round {
    Request(ControllerMode),
    Pdu(PduMode),
}

// A record for the transceiver of a network.
#[derive(Clone, Copy, Debug, PartialEq, Eq)]
pub enum Errand {
    Mode(TransceiverMode),
    Clear,
    Check,
}

// ---- records for the controllers and for the transceiver

fn round_record(round: Round, id: u8) -> Record
    ensures { result ≡ round_record round id }
{
    match round {
        Round::Request(mode) => Record::controller_mode(id, mode),
        Round::Pdu(mode) => Record::pdu_mode(id, mode),
    }
}

// S14: a record for each controller, in the order of the sheet.
fn put_round(tray: &mut Tray, network: Network, round: Round)
    requires { HasRoom tray.old (map (round_record round) (controllers_of network)) }
    ensures { Handed tray.old (map (round_record round) (controllers_of network)) tray.new }
{
    for &id in lists::in_use(&network.controllers, network.count) {
        tray.put(round_record(round, id));
    }
}

fn errand_record(errand: Errand, id: u8) -> Record
    ensures { result ≡ errand_record errand id }
{
    match errand {
        Errand::Mode(mode) => Record::transceiver_mode(id, mode),
        Errand::Clear => Record::clear_wake(id),
        Errand::Check => Record::check_wake(id),
    }
}

// A record for the transceiver, where there is one.
#[tactic(auto, using(records::proofs::Trays::handed_none))]
fn put_errand(tray: &mut Tray, network: Network, errand: Errand)
    requires { HasRoom tray.old (map (errand_record errand) (listed network.transceiver)) }
    ensures { Handed tray.old (map (errand_record errand) (listed network.transceiver)) tray.new }
{
    if let Some(id) = network.transceiver {
        tray.put(errand_record(errand, id));
    }
}

// ---- what a move hands out

// N11: the requests of a step, by what it asks for.
#[tactic(auto, using(records::proofs::Trays::handed_none), unfolding(crate::specs::Handing::requests))]
fn put_requests(tray: &mut Tray, network: Network, ask: Ask)
    requires { HasRoom tray.old (requests ask network) }
    ensures { Handed tray.old (requests ask network) tray.new }
{
    match ask {
        Ask::Nothing => {}
        Ask::Controllers(mode) => put_round(tray, network, Round::Request(mode)),
        Ask::Transceiver(mode) => put_errand(tray, network, Errand::Mode(mode)),
        Ask::ClearWake => put_errand(tray, network, Errand::Clear),
        Ask::CheckWake => put_errand(tray, network, Errand::Check),
    }
}

// T23, T24: entering full or silent: the PDU mode of each controller, and what is told.
#[tactic(auto, unfolding(crate::specs::Handing::entering))]
fn put_entering(tray: &mut Tray, network: Network, pdu: PduMode, mode: Mode, notice: Notice)
    requires { HasRoom tray.old (entering network pdu mode notice) }
    ensures { Handed tray.old (entering network pdu mode notice) tray.new }
{
    put_round(tray, network, Round::Pdu(pdu));
    tray.put(Record::tell(network.handle, mode));
    tray.put(Record::note(network.handle, notice));
}

// T25: the notices of going down, which are 7 no and, where full was told, 6 silent.
#[tactic(auto, unfolding(crate::specs::Handing::down_notices))]
fn put_down_notices(tray: &mut Tray, handle: u8, told: Mode)
    requires { HasRoom tray.old (down_notices handle told) }
    ensures { Handed tray.old (down_notices handle told) tray.new }
{
    tray.put(Record::note(handle, Notice::No));
    if told == Mode::Full {
        tray.put(Record::tell(handle, Mode::Silent));
    }
}

// T25: going down: the notices, and the requests of the first down step.
#[tactic(auto, unfolding(crate::specs::Handing::going_down))]
fn put_down(tray: &mut Tray, network: Network, told: Mode)
    requires { HasRoom tray.old (going_down network told) }
    ensures { Handed tray.old (going_down network told) tray.new }
{
    put_down_notices(tray, network.handle, told);
    put_requests(tray, network, steps::first_down(network.partial).asks());
}

// What a move hands out, of a network in a step with a mode told.
#[tactic(auto, using(records::proofs::Trays::handed_none), unfolding(crate::specs::Handing::move_records, crate::specs::Handing::entering_full, crate::specs::Handing::entering_silent))]
pub fn put_move(tray: &mut Tray, network: Network, step: Step, told: Mode, to: Move)
    requires { HasRoom tray.old (move_records network step told to) }
    ensures { Handed tray.old (move_records network step told to) tray.new }
{
    match to {
        Move::Stay | Move::Count(_) => {}
        Move::AskAgain => put_requests(tray, network, step.asks()),
        Move::EnterFull => put_entering(tray, network, PduMode::Online, Mode::Full, Notice::Full),
        Move::EnterSilent => put_entering(
            tray,
            network,
            PduMode::TxOffline,
            Mode::Silent,
            Notice::Silent,
        ),
        Move::Pass => tray.put(Record::report(network.handle, EventStatus::Passed)),
        Move::Wait => put_round(tray, network, Round::Pdu(PduMode::TxOffline)),
        Move::GoDown => put_down(tray, network, told),
        Move::EnterNoCommunication => tray.put(Record::tell(network.handle, Mode::No)),
        Move::Enter(next) => put_requests(tray, network, next.asks()),
    }
}

// B3: the records of a recovery that begins.
#[tactic(auto, unfolding(crate::specs::Handing::recovery))]
pub fn put_recovery(tray: &mut Tray, handle: u8)
    requires { HasRoom tray.old (recovery handle) }
    ensures { Handed tray.old (recovery handle) tray.new }
{
    tray.put(Record::report(handle, EventStatus::Prefailed));
    tray.put(Record::tell(handle, Mode::Silent));
    tray.put(Record::note(handle, Notice::BusOff));
}

// X2: the record of a reset that begins.
#[tactic(auto, unfolding(crate::specs::Handing::reset))]
pub fn put_reset(tray: &mut Tray, handle: u8)
    requires { HasRoom tray.old (reset handle) }
    ensures { Handed tray.old (reset handle) tray.new }
{
    let told = Record::tell(handle, Mode::Silent);
    tray.put(told);
}

// L3: steps 4, 5, 15 and 16.
fn is_online(phase: Phase) -> bool
    ensures { result ≡ online_phase phase }
{
    matches!(phase, Phase::Checking | Phase::Full | Phase::Resetting)
}

// L3: online for each controller, in these steps.
#[tactic(auto, using(records::proofs::Trays::handed_none), unfolding(crate::specs::Handing::online_in))]
pub fn put_online(tray: &mut Tray, network: Network, step: Step)
    requires { HasRoom tray.old (online_in network step) }
    ensures { Handed tray.old (online_in network step) tray.new }
{
    if is_online(step.phase()) {
        put_round(tray, network, Round::Pdu(PduMode::Online));
    }
}
