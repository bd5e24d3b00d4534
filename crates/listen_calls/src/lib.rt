// The call by which the whole manager listens, or sends again.
#![tactic(auto)]

ghost use Rattle.std.specs.Prelude.{◌≡◌, [], map, ◌≤◌, length};
ghost use Rattle.records.specs.Records.{turned};
ghost use Rattle.records.specs.Wrote.{Wrote};
ghost use Rattle.slots.specs.Manager.{refused, listen_needs};
ghost use Rattle.slots.specs.Calls as calls;

use records::Tray;
use slots::{CallRefusal, Manager, Outcome, gate_of, listen_needs};

// L3: online for the controllers of each network in steps 4, 5, 15 and 16, in the order of the sheet.
// It makes the tray itself and gives the count: the buffer is gone over once more after it.
fn put_all_online(manager: Manager, out: &mut [u8]) -> usize
    requires { listen_needs manager ≤ length out.old }
    ensures { Wrote out.old out.new 0 result (calls.all_online manager) }
{
    let mut tray = Tray { out, count: 0 };
    for (i, network) in lists::in_use(&manager.settings.networks, manager.settings.count)
        .iter()
        .enumerate()
    {
        handing::put_online(&mut tray, *network, manager.states[i].step);
    }
    tray.count
}

// L1 to L4: the manager listens or does not from now on. The room is asked for in three functions: each lends the buffer on.
fn set_listening(manager: Manager, listening: bool, out: &mut [u8]) -> Outcome
    requires { listen_needs manager ≤ length out.old }
    ensures { (result ≡ calls.listened manager listening)
        × (out.new ≡ calls.buffer_with out.old (map (turned listening) (calls.online_anew manager listening))) }
{
    let next = manager.with_listening(listening);
    // L3: a manager that listens or does not comes to do the other.
    if manager.listening != listening {
        let count = put_all_online(manager, out);
        records::heed(out, count, listening);
        return Outcome {
            count,
            ..Outcome::accept(next)
        };
    }
    Outcome::accept(next)
}

// R13, L1: 1 sets it and 0 clears it.
fn listen_started(manager: Manager, value: u8, out: &mut [u8]) -> Outcome
    requires { listen_needs manager ≤ length out.old }
    ensures { (result ≡ calls.by_value value (refused manager CallRefusal.OutOfRange) (calls.listened manager))
        × (out.new
        ≡ calls.buffer_with out.old (map (turned result.manager.listening) (calls.by_value value [] (calls.online_anew manager)))) }
{
    if Manager::LISTENS < value {
        return Outcome::refuse(manager, Err(CallRefusal::OutOfRange));
    }
    set_listening(manager, Manager::LISTENS == value, out)
}

// R7, R9, R24, L1: the manager listens, or does not; three bytes are needed for each controller, whatever goes out.
pub fn listen(manager: Manager, value: u8, out: &mut [u8]) -> Outcome
    ensures { calls.Gives manager (calls.listen value (length out.old)) out.old result out.new }
{
    match gate_of(manager, out.len(), listen_needs(manager)) {
        Err(refusal) => Outcome::refuse(manager, Err(refusal)),
        Ok(()) => listen_started(manager, value, out),
    }
}
