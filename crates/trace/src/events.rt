// The events one by one: what a field says, and the call of the manager that it is.
ghost use Rattle.std.specs.Prelude.{◌≡◌, ◌+◌, ◌≤◌};
ghost use lib.ListN.{length, get_or, take, drop};
ghost use Rattle.fields.specs.Fields.{ReadAt};
ghost use Rattle.trace.specs.Events.{item_of, item_at, call_of};
ghost use Rattle.slots.specs.Calls.{Gives};

use crate::{Event, FoundItem, Item, Trace};
use fields::Field;
use manager::{Manager, Outcome};

// A whole field, by its tag and its value: an event if the value has as many bytes as the tag asks for.
#[tactic(auto, unfolding(crate::specs::Events::item_of, crate::specs::Events::event_of))]
fn whole_item(tag: u8, value: &[u8]) -> Item
    ensures { result ≡ item_of tag value.now }
{
    match (tag, value) {
        (Event::REQUEST, &[handle, mode]) => Item::Known(Event::Request { handle, mode }),
        (Event::BUS_OFF, &[controller]) => Item::Known(Event::BusOff { controller }),
        (Event::ANSWER, &[controller, mode, ok]) => Item::Known(Event::Answer {
            controller,
            mode,
            ok,
        }),
        (Event::TRANSCEIVER_MODE, &[transceiver, mode]) => Item::Known(Event::TransceiverMode {
            transceiver,
            mode,
        }),
        (Event::CLEAR_DONE, &[transceiver]) => Item::Known(Event::ClearDone { transceiver }),
        (Event::CHECK_DONE, &[transceiver]) => Item::Known(Event::CheckDone { transceiver }),
        (Event::TICK, []) => Item::Known(Event::Tick),
        (Event::POLL, &[handle]) => Item::Known(Event::Poll { handle }),
        (Event::STALL, &[handle]) => Item::Known(Event::Stall { handle }),
        (Event::LISTEN, &[value]) => Item::Known(Event::Listen { value }),
        _ => Item::Bad,
    }
}

// What stands at a place of the events.
pub fn event_at(bytes: &[u8], at: usize) -> FoundItem
    ensures { ReadAt item_at bytes.now at result.item result.next }
{
    let (item, next) = match fields::field_at(bytes, at) {
        Field::End => (Item::End, at),
        Field::Stub { .. } | Field::Overrun { .. } => (Item::Bad, at),
        Field::Whole { tag, next, .. } => (whole_item(tag, &bytes[at + Field::HEAD..next]), next),
    };
    FoundItem { item, next }
}

// The call of the manager that an event is, with its lent buffer.
// Stays a match: each call has other arguments, so a table of closures would have the same lines.
#[tactic(auto, using(crate::proofs::EventLaws::quiet_gives), unfolding(slots::specs::Calls::by_rules, slots::specs::Calls::handed_out))]
pub fn run_event(manager: Manager, event: Event, buffer: &mut [u8; Trace::LENT]) -> Outcome
    ensures { Gives manager (call_of event) buffer.old result buffer.new }
{
    match event {
        Event::Request { handle, mode } => manager::request(manager, handle, mode),
        Event::BusOff { controller } => manager::bus_off(manager, controller, buffer),
        Event::Answer {
            controller,
            mode,
            ok,
        } => manager::controller_answer(manager, controller, mode, ok),
        Event::TransceiverMode { transceiver, mode } => manager::transceiver_mode(
            manager,
            transceiver,
            mode,
        ),
        Event::ClearDone { transceiver } => manager::clear_done(manager, transceiver),
        Event::CheckDone { transceiver } => manager::check_done(manager, transceiver),
        Event::Tick => manager::tick(manager, buffer),
        Event::Poll { handle } => manager::poll(manager, handle),
        Event::Stall { handle } => manager::stall(manager, handle, buffer),
        Event::Listen { value } => manager::listen(manager, value, buffer),
    }
}
