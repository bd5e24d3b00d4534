// Where the sheet ends and the events begin.
ghost use Rattle.std.specs.Prelude.{◌≡◌};
ghost use Rattle.trace.specs.Splitting.{events_from};

use crate::Event;
use fields::Field;

// The place of the first event, from a place on. It walks field by field, and the rest is always shorter. Where a field before the first event is cut,
// all the rest is sheet.
pub fn events_from(bytes: &[u8], at: usize) -> usize
    ensures { result ≡ events_from bytes.now at }
{
    match fields::field_at(bytes, at) {
        Field::End => bytes.len(),
        Field::Stub { tag } | Field::Overrun { tag, .. } if tag < Event::REQUEST => bytes.len(),
        Field::Whole { tag, next, .. } if tag < Event::REQUEST => events_from(bytes, next),
        _ => at,
    }
}
