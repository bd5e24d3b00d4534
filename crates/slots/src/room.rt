// The room that a call needs for its records.
ghost use Rattle.std.specs.Prelude.{◌≡◌, ◌≤◌};
ghost use Rattle.slots.specs.Manager.{share_in, needs_of, tick_needs, listen_needs};
ghost use Rattle.slots.specs.Calls.{gate_of};

use crate::{Answer, CallRefusal, Manager, Share, Stage};
use records::Record;
use settings::Network;

// R16, R24: how many records a network may hand out, on a tick or on a call to listen.
fn share_of(network: &Network, share: Share) -> usize
    ensures { (result ≡ share_in share network.now) × (result ≤ 6) }
{
    let count = lists::in_use(&network.controllers, network.count).len();
    match share {
        Share::Listen => count,
        Share::Tick => count.max(Network::FEWEST_CONTROLLERS) + Manager::NOTICES,
    }
}

// The bytes that the records of all networks need.
fn needs_of(manager: Manager, share: Share) -> usize
    ensures { result ≡ needs_of share manager }
{
    let mut total: usize = 0;
    for network in lists::in_use(&manager.settings.networks, manager.settings.count) {
        total += share_of(network, share);
    }
    Record::SIZE * total
}

// R16: the bytes that a tick needs.
#[tactic(auto, unfolding(crate::specs::Manager::needs_of, crate::specs::Manager::tick_needs))]
pub fn tick_needs(manager: Manager) -> usize
    ensures { result ≡ tick_needs manager }
{
    needs_of(manager, Share::Tick)
}

// R24: the bytes that a call to listen needs.
#[tactic(auto, unfolding(crate::specs::Manager::needs_of, crate::specs::Manager::listen_needs))]
pub fn listen_needs(manager: Manager) -> usize
    ensures { result ≡ listen_needs manager }
{
    needs_of(manager, Share::Listen)
}

// R6, R7, R9: a call that hands out records goes on where the manager is started and the lent buffer has the room.
pub fn gate_of(manager: Manager, room: usize, needs: usize) -> Answer
    ensures { result ≡ gate_of manager room needs }
{
    match manager.stage {
        Stage::Empty | Stage::Loaded => Err(CallRefusal::NotReady),
        Stage::Started if room < needs => Err(CallRefusal::TooShort),
        Stage::Started => Ok(()),
    }
}
