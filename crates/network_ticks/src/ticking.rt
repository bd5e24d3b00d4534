// One network's tick: the conditions, the decision, and what follows from it.
ghost use Rattle.std.specs.Prelude.{◌≡◌};
ghost use Rattle.std.specs.List.{list_all, list_any};
ghost use Rattle.records.specs.Tray.{HasRoom, Handed};
ghost use Rattle.network.specs.State.{heard_of};
ghost use Rattle.network.specs.Rules.{is_okay, is_refusal, is_done, is_long, delay_of, reached_by, outfit_of, move_of};
ghost use Rattle.network.specs.Moving.{tick_state, tick_records};
ghost use Rattle.network.specs.Rest.{rests_in};

use crate::moving::after_move;
use network::{LastAnswer, State};
use records::{Mode, Tray};
use settings::{Network, Relation};
use steps::{Ask, Move, Outfit, Phase, Timer};

// ---- the answers

// Every controller's last answer is ok.
fn all_okay(network: Network, state: State) -> bool
    ensures { result ≡ list_all is_okay (heard_of network state) }
{
    lists::in_use(&state.answers, network.count)
        .iter()
        .all(|&answer| answer == LastAnswer::Okay)
}

// Some controller's last answer is a refusal.
fn any_refused(network: Network, state: State) -> bool
    ensures { result ≡ list_any is_refusal (heard_of network state) }
{
    lists::in_use(&state.answers, network.count)
        .iter()
        .any(|&answer| answer == LastAnswer::Refused)
}

// ---- the conditions of the decision

// N13: the step has asked, and what it asked for is there.
fn is_done(network: Network, state: State) -> bool
    ensures { result ≡ is_done network state }
{
    state.asked
        && match state.step.asks() {
            Ask::Nothing => false,
            Ask::Controllers(_) => all_okay(network, state),
            Ask::Transceiver(_) | Ask::ClearWake | Ask::CheckWake => state.reported,
        }
}

// S27, T13: the long delay, where the count is above the threshold or, by the newer relation, at it already.
fn is_long(relation: Relation, threshold: u8, count: u8) -> bool
    ensures { result ≡ is_long relation threshold count }
{
    match relation {
        Relation::Above => threshold < count,
        Relation::AtOrAbove => threshold <= count,
    }
}

fn delay_of(network: Network, count: u8) -> u16
    ensures { result ≡ delay_of network count }
{
    if is_long(network.relation, network.threshold, count) {
        network.long
    } else {
        network.short
    }
}

// T10, T13: with this tick the number of ticks reaches its time.
// Stays a match: each of its three arms says something else.
fn is_reached(timer: Timer, ensure: u16, delay: u16) -> bool
    ensures { result ≡ reached_by timer ensure delay }
{
    match timer {
        Timer::Idle => false,
        Timer::Ensure(ticks) => (ensure as u32) <= (ticks as u32) + 1,
        Timer::Delay(ticks) => (delay as u32) <= (ticks as u32) + 1,
    }
}

fn outfit_of(transceiver: Option<u8>, partial: bool) -> Outfit
    ensures { result ≡ outfit_of transceiver partial }
{
    match (transceiver, partial) {
        (None, _) => Outfit::Bare,
        (Some(_), false) => Outfit::Fitted,
        (Some(_), true) => Outfit::Partial,
    }
}

// T1, T19: the move of this tick. Refusals are looked for only where they decide, in step 12.
fn choose(network: Network, state: State) -> Move
    ensures { result ≡ move_of network state }
{
    let step = state.step;
    let done = is_done(network, state);
    let refused = step.asks().is_to_sleep() && any_refused(network, state);
    let reached = is_reached(step.timer(), network.ensure, delay_of(network, state.count));
    let outfit = outfit_of(network.transceiver, network.partial);
    deciding::decide(step, state.wanted, done, refused, reached, outfit)
}

// The network rests: what is wanted is there. Its tick changes nothing and hands out nothing.
pub fn rests(state: State) -> bool
    ensures { result ≡ rests_in state.step state.wanted }
{
    matches!(
        (state.step.phase(), state.wanted),
        (Phase::Off, Mode::No) | (Phase::Full, Mode::Full) | (Phase::Silent, Mode::Silent)
    )
}

// One network's tick: the record after it, and what it hands out onto the tray.
#[tactic(auto, unfolding(network::specs::Moving::tick_state, network::specs::Moving::tick_records))]
pub fn tick(network: Network, state: State, tray: &mut Tray) -> State
    requires { HasRoom tray.old (tick_records network state) }
    ensures state { result ≡ tick_state network state }
    ensures records { Handed tray.old (tick_records network state) tray.new }
{
    let to = choose(network, state);
    handing::put_move(tray, network, state.step, state.told, to);
    after_move(network, state, to)
}
