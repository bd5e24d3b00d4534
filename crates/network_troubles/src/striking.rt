// A bus-off of one of the network's controllers, and a stall of its sending.
ghost use Rattle.std.specs.Prelude.{◌≡◌};
ghost use Rattle.records.specs.Tray.{HasRoom, Handed};
ghost use Rattle.network.specs.BusOff.{hit_of, stall_of, hit_by, counted_in, made_anew, after_hit, hit_records};
ghost use Rattle.network.specs.Parts.{hit_part};

use network::{Hit, Part, Refusal, State, Trouble};
use records::{Mode, Tray};
use settings::Network;
use steps::Step;

// B4 to B6: in an up step recovery begins; in step 3, which asks the controllers to start, the step begins anew.
fn hit_of(step: Step) -> Option<Hit>
    ensures { result ≡ hit_of step }
{
    if step.is_up() {
        return Some(Hit::Recover);
    }
    step.asks().is_to_start().then_some(Hit::Restart)
}

// X2, X5: in steps 4 and 5 a reset begins.
fn stall_of(step: Step) -> Option<Hit>
    ensures { result ≡ stall_of step }
{
    step.is_full().then_some(Hit::Reset)
}

fn hit_by(trouble: Trouble, step: Step) -> Option<Hit>
    ensures { result ≡ hit_by trouble step }
{
    match trouble {
        Trouble::BusOff => hit_of(step),
        Trouble::Stall => stall_of(step),
    }
}

// B2: the count after a bus-off that was taken in an up step, one more up to 255: in step 6 it stays, since the fault that led there was counted.
fn count_in(step: Step, count: u8) -> u8
    ensures { result ≡ counted_in step count }
{
    if step.is_restarting() {
        return count;
    }
    count.saturating_add(1)
}

// B4, B5, X3: the step has not asked, and the answers are forgotten.
fn anew(state: State, step: Step, told: Mode, count: u8) -> State
    ensures { result ≡ made_anew state step told count }
{
    State {
        step,
        told,
        count,
        asked: false,
        answers: State::NO_ANSWERS,
        reported: false,
        ..state
    }
}

// The record after trouble that the step takes.
fn after_hit(state: State, hit: Hit) -> State
    ensures { result ≡ after_hit state hit }
{
    match hit {
        Hit::Recover => {
            let count = count_in(state.step, state.count);
            anew(state, Step::Restarting, Mode::Silent, count)
        }
        Hit::Restart => anew(state, state.step, state.told, state.count),
        Hit::Reset => anew(state, Step::ResetStopped, Mode::Silent, state.count),
    }
}

// What the network makes of it: the record after it, where the step takes it.
fn hit_part(state: State, hit: Option<Hit>) -> Part
    ensures { result ≡ hit_part state hit }
{
    match hit {
        Some(hit) => Part::take(after_hit(state, hit)),
        None => Part::decline(state, Refusal::NotTaken),
    }
}

// Trouble: what the network makes of it, and its records onto the tray.
#[tactic(auto, using(records::proofs::Trays::handed_none), unfolding(network::specs::BusOff::hit_records))]
pub fn strike(network: Network, state: State, trouble: Trouble, tray: &mut Tray) -> Part
    requires { HasRoom tray.old (hit_records network (hit_by trouble state.step)) }
    ensures part { result ≡ hit_part state (hit_by trouble state.step) }
    ensures records { Handed tray.old (hit_records network (hit_by trouble state.step)) tray.new }
{
    let hit = hit_by(trouble, state.step);
    match hit {
        Some(Hit::Recover) => handing::put_recovery(tray, network.handle),
        Some(Hit::Reset) => handing::put_reset(tray, network.handle),
        Some(Hit::Restart) | None => {}
    }
    hit_part(state, hit)
}
