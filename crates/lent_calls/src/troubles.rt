// The calls by which trouble is reported, and which hand out records at once: a bus-off, which names a controller, and a stall, which names a handle.
ghost use Rattle.std.specs.Prelude.{Ok, ◌≤◌, length};
ghost use Rattle.network.specs.Parts.{sight_of};
ghost use Rattle.slots.specs.Calls as calls;

use finding::slot_in;
use network::Trouble;
use records::Tray;
use settings::Id;
use slots::{Manager, Outcome, gate_of, settle};

// What the network of a slot makes of it.
fn strike_at(manager: Manager, at: usize, trouble: Trouble, out: &mut [u8]) -> Outcome
    requires { calls.trouble_needs trouble ≤ length out.old }
    ensures { calls.SlotGives manager (Ok at) (sight_of trouble) out.old result out.new }
{
    let mut tray = Tray { out, count: 0 };
    let part = network_troubles::strike(
        manager.network_at(at),
        manager.state_at(at),
        trouble,
        &mut tray,
    );
    settle(manager, at, part, tray.count)
}

fn strike_started(manager: Manager, id: Id, trouble: Trouble, out: &mut [u8]) -> Outcome
    requires { calls.trouble_needs trouble ≤ length out.old }
    ensures { calls.SlotGives manager (calls.slot_of manager id) (sight_of trouble) out.old result out.new }
{
    match slot_in(&manager, id) {
        Err(refusal) => Outcome::refuse(manager, Err(refusal)),
        Ok(at) => strike_at(manager, at, trouble, out),
    }
}

// R7, R9, R17, B1: a controller has gone bus-off; 9 bytes are needed, whatever the step hands out.
// The two arms stay in each call that is lent a buffer: a function of both would take a closure, and say by a clause what the second arm says by
// itself.
pub fn bus_off(manager: Manager, id: u8, out: &mut [u8]) -> Outcome
    ensures { calls.Gives manager (calls.bus_off id (length out.old)) out.old result out.new }
{
    match gate_of(manager, out.len(), Manager::BUS_OFF_NEEDS) {
        Err(refusal) => Outcome::refuse(manager, Err(refusal)),
        Ok(()) => strike_started(manager, Id::OfController(id), Trouble::BusOff, out),
    }
}

// R7, R9, R21, X1: the sending of a network has stuck; 3 bytes are needed, whatever the step hands out.
pub fn stall(manager: Manager, handle: u8, out: &mut [u8]) -> Outcome
    ensures { calls.Gives manager (calls.stall handle (length out.old)) out.old result out.new }
{
    match gate_of(manager, out.len(), Manager::STALL_NEEDS) {
        Err(refusal) => Outcome::refuse(manager, Err(refusal)),
        Ok(()) => strike_started(manager, Id::OfNetwork(handle), Trouble::Stall, out),
    }
}
