// The tick of the manager: every network in the order of the sheet.
ghost use Rattle.std.specs.Prelude.{◌≡◌, ◌≤◌, length, map};
ghost use Rattle.records.specs.Records.{turned};
ghost use Rattle.network.specs.Moving.{tick_records};
ghost use Rattle.slots.specs.Manager.{networks_of, tick_needs, gathered};
ghost use Rattle.slots.specs.Calls as calls;

use records::Tray;
use slots::{Manager, Outcome, Stage, gate_of, tick_needs};

// T1, H2: every network ticks, in the order of the sheet. One that rests stays as it is.
fn tick_networks(manager: Manager, out: &mut [u8]) -> Outcome
    requires { tick_needs manager ≤ length out.old }
    ensures { (result ≡ calls.all_ticked manager)
        × (out.new ≡ calls.buffer_with out.old (gathered tick_records (networks_of manager) manager.states)) }
{
    let mut states = manager.states;
    let mut tray = Tray { out, count: 0 };
    for (i, network) in lists::in_use(&manager.settings.networks, manager.settings.count)
        .iter()
        .enumerate()
    {
        let state = states[i];
        if !network_ticks::rests(state) {
            states[i] = network_ticks::tick(*network, state, &mut tray);
        }
    }
    Outcome {
        count: tray.count,
        ..Outcome::accept(Manager {
            stage: Stage::Started,
            states,
            ..manager
        })
    }
}

// L2: what the networks hand out goes out as it does where the manager listens, or does not.
fn tick_started(manager: Manager, out: &mut [u8]) -> Outcome
    requires { tick_needs manager ≤ length out.old }
    ensures { (result ≡ calls.all_ticked manager)
        × (out.new
        ≡ calls.buffer_with out.old (map (turned manager.listening) (gathered tick_records (networks_of manager) manager.states))) }
{
    let outcome = tick_networks(manager, out);
    records::heed(out, outcome.count, manager.listening);
    outcome
}

// R7, R9, R16: a tick of the manager, where it is started and the lent buffer has the room.
pub fn tick(manager: Manager, out: &mut [u8]) -> Outcome
    ensures { calls.Gives manager (calls.tick (length out.old)) out.old result out.new }
{
    match gate_of(manager, out.len(), tick_needs(manager)) {
        Err(refusal) => Outcome::refuse(manager, Err(refusal)),
        Ok(()) => tick_started(manager, out),
    }
}
