// What an entry does to the settings: the tests of the order of fields, of ranges and of ids.
#![tactic(auto)]

ghost use Rattle.std.specs.Prelude.{◌≡◌, ◌<◌};
ghost use Rattle.settings.specs.Settings.{networks_of};
ghost use Rattle.entries.specs.Grammar.{begun, opens_with, takes_relation, on_relation, opens, takes_controller, takes_transceiver};
ghost use Rattle.entries.specs.Grammar.{takes_times, takes_threshold, takes_partial, add_controller, add_transceiver, add_times};
ghost use Rattle.entries.specs.Grammar.{add_threshold, add_partial, add_relation};
ghost use Rattle.entries.specs.Grammar.{on_controller, on_transceiver, on_times, on_threshold, on_partial, fills};

use entries::{Entry, Fault, Filled, Opening, Progress};
use settings::{Id, Network, Relation, Settings};

// ---- where a network may begin, or where field 07 of the one before may stand

#[tactic(auto, unfolding(entries::specs::Grammar::opens_with))]
fn open_with(settings: Settings, handle: u8) -> Result<Opening, Fault>
    ensures { result ≡ opens_with settings handle }
{
    if settings.uses(Id::OfNetwork(handle)) {
        return Err(Fault::UsedBefore);
    }
    if Settings::MOST_NETWORKS <= settings.count as usize {
        return Err(Fault::TooMany);
    }
    Ok(Opening::Begins(handle))
}

// S19: there is a network before, and it has no field 07 yet.
fn takes_relation(settings: Settings) -> bool
    ensures { result ≡ takes_relation (networks_of settings) }
{
    match lists::in_use(&settings.networks, settings.count).last() {
        Some(network) => matches!(network.relation, Relation::Above),
        None => false,
    }
}

#[tactic(auto, unfolding(entries::specs::Grammar::on_relation))]
fn on_relation(settings: Settings, value: u8) -> Result<Opening, Fault>
    ensures { result ≡ on_relation settings value }
{
    if !takes_relation(settings) {
        return Err(Fault::OutOfOrder);
    }
    if value != Entry::AT_OR_ABOVE {
        return Err(Fault::OutOfRange);
    }
    Ok(Opening::Amends)
}

// A network with field 07.
#[tactic(auto, unfolding(entries::specs::Grammar::add_relation))]
pub fn add_relation(network: Network) -> Network
    ensures { result ≡ add_relation network }
{
    Network {
        relation: Relation::AtOrAbove,
        ..network
    }
}

// What an entry does where a network may begin.
#[tactic(auto, unfolding(entries::specs::Grammar::opens))]
pub fn open_network(settings: Settings, entry: Entry) -> Result<Opening, Fault>
    ensures { result ≡ opens settings entry }
{
    match entry {
        Entry::End => Ok(Opening::Closes),
        Entry::Bad(fault) => Err(fault),
        Entry::Handle(handle) => open_with(settings, handle),
        Entry::Relation(value) => on_relation(settings, value),
        _ => Err(Fault::OutOfOrder),
    }
}

// A network that has its handle and nothing else.
#[tactic(auto, unfolding(entries::specs::Grammar::begun, settings::specs::Settings::blank_network))]
pub fn begin_network(handle: u8) -> Network
    ensures { result ≡ begun handle }
{
    Network {
        handle,
        ..Network::blank()
    }
}

// ---- in a network: the order of fields. Five functions stay: each is one line, under the name of the definition of its rule.

fn takes_controller(progress: Progress) -> bool
    ensures { result ≡ takes_controller progress }
{
    matches!(progress, Progress::Named | Progress::Listed)
}

fn takes_transceiver(progress: Progress) -> bool
    ensures { result ≡ takes_transceiver progress }
{
    progress == Progress::Listed
}

fn takes_times(progress: Progress) -> bool
    ensures { result ≡ takes_times progress }
{
    matches!(progress, Progress::Listed | Progress::Fitted)
}

fn takes_threshold(progress: Progress) -> bool
    ensures { result ≡ takes_threshold progress }
{
    progress == Progress::Timed
}

fn takes_partial(progress: Progress) -> bool
    ensures { result ≡ takes_partial progress }
{
    progress == Progress::Limited
}

// ---- in a network: each field

// A changed copy: one slot is new, which a literal cannot say.
#[tactic(auto, unfolding(entries::specs::Grammar::add_controller))]
fn add_controller(network: Network, id: u8) -> Network
    requires { network.count < 4 }
    ensures { result ≡ add_controller network id }
{
    let mut next = network;
    next.controllers[network.count as usize] = id;
    next.count += 1;
    next
}

#[tactic(auto, unfolding(entries::specs::Grammar::on_controller))]
fn on_controller(
    settings: Settings,
    network: Network,
    progress: Progress,
    id: u8,
) -> Result<Filled, Fault>
    ensures { result ≡ on_controller settings network progress id }
{
    if !takes_controller(progress) {
        return Err(Fault::OutOfOrder);
    }
    if Network::CONTROLLER_IDS <= id {
        return Err(Fault::OutOfRange);
    }
    if settings.uses(Id::OfController(id)) {
        return Err(Fault::UsedBefore);
    }
    if network.has(Id::OfController(id)) {
        return Err(Fault::UsedBefore);
    }
    if Network::MOST_CONTROLLERS <= network.count as usize {
        return Err(Fault::TooMany);
    }
    Ok(Filled {
        network: add_controller(network, id),
        progress: Some(Progress::Listed),
    })
}

#[tactic(auto, unfolding(entries::specs::Grammar::add_transceiver))]
fn add_transceiver(network: Network, id: u8) -> Network
    ensures { result ≡ add_transceiver network id }
{
    Network {
        transceiver: Some(id),
        ..network
    }
}

#[tactic(auto, unfolding(entries::specs::Grammar::on_transceiver))]
fn on_transceiver(
    settings: Settings,
    network: Network,
    progress: Progress,
    id: u8,
) -> Result<Filled, Fault>
    ensures { result ≡ on_transceiver settings network progress id }
{
    if !takes_transceiver(progress) {
        return Err(Fault::OutOfOrder);
    }
    if Network::TRANSCEIVER_IDS <= id {
        return Err(Fault::OutOfRange);
    }
    if settings.uses(Id::OfTransceiver(id)) {
        return Err(Fault::UsedBefore);
    }
    Ok(Filled {
        network: add_transceiver(network, id),
        progress: Some(Progress::Fitted),
    })
}

#[tactic(auto, unfolding(entries::specs::Grammar::add_times))]
fn add_times(network: Network, short: u16, long: u16, ensure: u16) -> Network
    ensures { result ≡ add_times network short long ensure }
{
    Network {
        short,
        long,
        ensure,
        ..network
    }
}

#[tactic(auto, unfolding(entries::specs::Grammar::on_times))]
fn on_times(
    network: Network,
    progress: Progress,
    short: u16,
    long: u16,
    ensure: u16,
) -> Result<Filled, Fault>
    ensures { result ≡ on_times network progress short long ensure }
{
    if !takes_times(progress) {
        return Err(Fault::OutOfOrder);
    }
    if short == Network::NO_TIME {
        return Err(Fault::OutOfRange);
    }
    if long == Network::NO_TIME {
        return Err(Fault::OutOfRange);
    }
    if ensure == Network::NO_TIME {
        return Err(Fault::OutOfRange);
    }
    Ok(Filled {
        network: add_times(network, short, long, ensure),
        progress: Some(Progress::Timed),
    })
}

#[tactic(auto, unfolding(entries::specs::Grammar::add_threshold))]
fn add_threshold(network: Network, threshold: u8) -> Network
    ensures { result ≡ add_threshold network threshold }
{
    Network {
        threshold,
        ..network
    }
}

#[tactic(auto, unfolding(entries::specs::Grammar::on_threshold))]
fn on_threshold(network: Network, progress: Progress, threshold: u8) -> Result<Filled, Fault>
    ensures { result ≡ on_threshold network progress threshold }
{
    if !takes_threshold(progress) {
        return Err(Fault::OutOfOrder);
    }
    if Network::THRESHOLDS <= threshold {
        return Err(Fault::OutOfRange);
    }
    Ok(Filled {
        network: add_threshold(network, threshold),
        progress: Some(Progress::Limited),
    })
}

#[tactic(auto, unfolding(entries::specs::Grammar::add_partial))]
fn add_partial(network: Network, partial: bool) -> Network
    ensures { result ≡ add_partial network partial }
{
    Network { partial, ..network }
}

#[tactic(auto, unfolding(entries::specs::Grammar::on_partial))]
fn on_partial(network: Network, progress: Progress, value: u8) -> Result<Filled, Fault>
    ensures { result ≡ on_partial network progress value }
{
    if !takes_partial(progress) {
        return Err(Fault::OutOfOrder);
    }
    if value == Entry::WITHOUT_PARTIAL {
        return Ok(Filled {
            network: add_partial(network, false),
            progress: None,
        });
    }
    if value != Entry::WITH_PARTIAL {
        return Err(Fault::OutOfRange);
    }
    if network.transceiver.is_none() {
        return Err(Fault::NoTransceiver);
    }
    Ok(Filled {
        network: add_partial(network, true),
        progress: None,
    })
}

// What an entry does to an unfinished network.
// The settings, the network and how far it has come stay three parameters: `fills` and the definitions under it take the same.
#[tactic(auto, unfolding(entries::specs::Grammar::fills))]
pub fn fill_network(
    settings: Settings,
    network: Network,
    progress: Progress,
    entry: Entry,
) -> Result<Filled, Fault>
    ensures { result ≡ fills settings network progress entry }
{
    match entry {
        Entry::End => Err(Fault::Cut),
        Entry::Bad(fault) => Err(fault),
        Entry::Controller(id) => on_controller(settings, network, progress, id),
        Entry::Transceiver(id) => on_transceiver(settings, network, progress, id),
        Entry::Times {
            short,
            long,
            ensure,
        } => on_times(network, progress, short, long, ensure),
        Entry::Threshold(threshold) => on_threshold(network, progress, threshold),
        Entry::Partial(value) => on_partial(network, progress, value),
        Entry::Handle(_) | Entry::Relation(_) => Err(Fault::OutOfOrder),
    }
}
