// Definitions and laws on lists that several crates need, and the one function on slots that are not all in use.
#![tactic(auto)]

ghost use Rattle.std.specs.Prelude.{◌≡◌, take};

// The slots that a count says are in use, from the front: all of them, where it says more than there are.
pub fn in_use<T>(slots: &[T], count: u8) -> &[T]
    ensures { result.now ≡ take count slots.now }
{
    let used = (count as usize).min(slots.len());
    &slots[..used]
}
