// Work for the manager, to be measured: the same as speed/work.c does on the same rules in C. A box around the manager plays its neighbours.
// C calls it through the crate workload_c.
// Each function starts a manager with a sheet, has it work for some rounds, and returns a sum of what it handed out.
#![tactic(auto)]

use manager::Manager;
use network::LastAnswer;
use records::{ControllerMode, EventStatus, Mode, Record};

// How the box answers: everything, and the networks come to rest in full communication; no request to a controller, so that requests go
// out again on every tick; or everything, and each all-clear is followed by a bus-off or by a shutdown, in turn.
// Stays a number: C hands it over, as speed/work.h names it.
const DEAF: u8 = 1;

const RESTLESS: u8 = 2;
// Rounds that bring every network to where it stays, in a box that answers everything or no request to a controller.
const SETTLING: u64 = 100;
// A sum is this much more with each number.
const FACTOR: u32 = 33;
// The numbers that a byte can be.
const BYTES: usize = 256;

// One number more of what was handed out.
fn mix(sum: u32, number: u8) -> u32 {
    sum.wrapping_mul(FACTOR).wrapping_add(u32::from(number))
}

// One after the other.
fn mix_all(sum: u32, numbers: &[u8]) -> u32 {
    numbers
        .iter()
        .fold(sum, |mixed, number| mix(mixed, *number))
}

// A manager with this sheet, started; without one where the sheet is refused.
fn begin(sheet: &[u8]) -> Manager {
    let taken = manager::read(manager::new(), sheet);
    manager::start(taken.manager).manager
}

// The manager after listening was set.
fn quiet(manager: Manager, out: &mut [u8; Manager::TICK_NEEDS]) -> Manager {
    manager::listen(manager, Manager::LISTENS, out).manager
}

// What has come of the rounds so far.
#[derive(Clone, Copy)]
struct Played {
    manager: Manager,
    sum: u32,
}

// A bus-off of a network's first controller, whose id is the network's handle in the sheets of this work.
fn strike(manager: Manager, handle: u8, sum: u32) -> Played {
    let mut records = [0; Manager::BUS_OFF_NEEDS];
    let outcome = manager::bus_off(manager, handle, &mut records);
    Played {
        manager: outcome.manager,
        sum: if outcome.count == 0 {
            sum
        } else {
            mix_all(sum, &records)
        },
    }
}

// Rounds of a tick and of what the box does with each record handed out.
fn play(manager: Manager, style: u8, rounds: u64, out: &mut [u8; Manager::TICK_NEEDS]) -> Played {
    let mut current = manager;
    let mut sum: u32 = 0;
    let mut shutdown = false;
    for _ in 0..rounds {
        let ticked = manager::tick(current, out);
        current = ticked.manager;
        for record in out.chunks_exact(Record::SIZE).take(ticked.count) {
            sum = mix_all(sum, record);
            let &[kind, target, argument] = record else {
                continue;
            };
            match kind {
                Record::CONTROLLER_MODE if style != DEAF => {
                    let okay = LastAnswer::OKAY;
                    current = manager::controller_answer(current, target, argument, okay).manager;
                }
                Record::TRANSCEIVER_MODE => {
                    current = manager::transceiver_mode(current, target, argument).manager;
                }
                Record::CLEAR_WAKE => current = manager::clear_done(current, target).manager,
                Record::CHECK_WAKE => current = manager::check_done(current, target).manager,
                Record::COMMUNICATION if argument == u8::from(Mode::No) => {
                    current = manager::request(current, target, Mode::Full.into()).manager;
                }
                Record::EVENTS if argument == u8::from(EventStatus::Passed) && style == RESTLESS =>
                    {
                        if shutdown {
                            current = manager::request(current, target, Mode::No.into()).manager;
                        } else {
                            let struck = strike(current, target, sum);
                            current = struck.manager;
                            sum = struck.sum;
                        }
                        shutdown = !shutdown;
                    }
                _ => {}
            }
        }
    }
    Played {
        manager: current,
        sum,
    }
}

// Rounds of a tick alone, of networks that have come to where they stay in a box of this style.
fn settled_ticks(
    manager: Manager,
    style: u8,
    rounds: u64,
    out: &mut [u8; Manager::TICK_NEEDS],
) -> u32 {
    let mut current = play(manager, style, SETTLING, out).manager;
    let mut sum: u32 = 0;
    for _ in 0..rounds {
        let ticked = manager::tick(current, out);
        current = ticked.manager;
        sum = mix(sum, (ticked.count % BYTES) as u8);
    }
    sum
}

// Rounds of a box of this style.
// The names of this function and of those after it stay: they are C's, and workload_c exports each under the same.
pub fn proved_play(
    sheet: &[u8],
    style: u8,
    rounds: u64,
    out: &mut [u8; Manager::TICK_NEEDS],
) -> u32 {
    play(begin(sheet), style, rounds, out).sum
}

// Ticks of networks that have come to where they stay in a box of this style.
pub fn proved_ticks(
    sheet: &[u8],
    style: u8,
    rounds: u64,
    out: &mut [u8; Manager::TICK_NEEDS],
) -> u32 {
    settled_ticks(begin(sheet), style, rounds, out)
}

// The same two with a manager that listens.
pub fn proved_quiet_play(
    sheet: &[u8],
    style: u8,
    rounds: u64,
    out: &mut [u8; Manager::TICK_NEEDS],
) -> u32 {
    play(quiet(begin(sheet), out), style, rounds, out).sum
}

pub fn proved_quiet_ticks(
    sheet: &[u8],
    style: u8,
    rounds: u64,
    out: &mut [u8; Manager::TICK_NEEDS],
) -> u32 {
    settled_ticks(quiet(begin(sheet), out), style, rounds, out)
}

// Answers of controllers that were asked to stop: of each in turn, ok, and then of each refused.
pub fn proved_answers(
    sheet: &[u8],
    controllers: u8,
    rounds: u64,
    out: &mut [u8; Manager::TICK_NEEDS],
) -> u32 {
    let mut current = play(begin(sheet), DEAF, SETTLING, out).manager;
    let mut sum: u32 = 0;
    let mut id: u8 = 0;
    let mut ok: u8 = LastAnswer::OKAY;
    for _ in 0..rounds {
        let answered = manager::controller_answer(current, id, ControllerMode::Stopped.into(), ok);
        current = answered.manager;
        sum = mix(sum, answered.number());
        id += 1;
        if controllers <= id {
            id = 0;
            ok = LastAnswer::OKAY - ok;
        }
    }
    sum
}
