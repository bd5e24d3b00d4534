// Which slot of a manager has an id. The manager is lent, and looked at where it stands: one network's settings are copied at a time.
#![tactic(auto)]

ghost use Rattle.std.specs.Prelude.{ℕ, Ok, ◌≡◌, ◌<◌};
ghost use Rattle.slots.specs.Calls.{slot_of};

use settings::Id;
use slots::{CallRefusal, Manager, Stage};

// R7, R10 to R12: the slot of the first network that has this id, in a started manager that is lent.
#[tactic(auto, using(crate::proofs::Slots::started_slot, crate::proofs::Slots::same_place), unfolding(slots::specs::Calls::slot_of))]
pub fn slot_in(manager: &Manager, id: Id) -> Result<usize, CallRefusal>
    ensures found { result ≡ slot_of manager.now id }
    ensures below { (i : ℕ) → result ≡ Ok i → i < 8 }
{
    match manager.stage {
        Stage::Empty | Stage::Loaded => Err(CallRefusal::NotReady),
        Stage::Started => manager.settings.holder(id).ok_or(CallRefusal::unknown(id)),
    }
}

// The same for callers that have the manager by value, and change nothing of it: the settings alone are looked at in memory.
#[tactic(auto, using(crate::proofs::Slots::started_slot), unfolding(slots::specs::Calls::slot_of))]
pub fn slot_of(manager: Manager, id: Id) -> Result<usize, CallRefusal>
    ensures { result ≡ slot_of manager id }
{
    if manager.stage != Stage::Started {
        return Err(CallRefusal::NotReady);
    }
    let settings = manager.settings;
    settings.holder(id).ok_or(CallRefusal::unknown(id))
}
