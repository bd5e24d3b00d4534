// The settings: what a sheet says of its networks, the limits, and which network has an id.
#![tactic(auto)]

ghost use Rattle.std.specs.Prelude.{ℕ, Some, position, ◌≡◌, ◌<◌};
ghost use Rattle.settings.specs.Settings.{blank_network, blank_settings, member, controllers_of, has_transceiver, has, networks_of, used, holder_of};

// S27: how the bus-offs that were counted are held against the threshold: the long delay comes above it, or at it already.
#[derive(Clone, Copy, Debug, PartialEq, Eq)]
pub enum Relation {
    Above,
    AtOrAbove,
}

// S4 to S9, S27: what the sheet says of one network.
// Stays slots and a count, as the settings do: there is no heap, and `controllers_of` and `networks_of` say which are in use.
#[derive(Clone, Copy)]
pub struct Network {
    pub handle: u8,
    // The ids of its controllers, in the order of the sheet; unused slots are 0.
    pub controllers: [u8; Network::MOST_CONTROLLERS],
    // How many controllers it has.
    pub count: u8,
    // S6: the id of its transceiver, which may be missing.
    pub transceiver: Option<u8>,
    // The short and the long delay and the ensure time, in ticks. They stay three fields: definitions and theorems name each.
    pub short: u16,
    pub long: u16,
    pub ensure: u16,
    pub threshold: u8,
    // With partial networking. It stays a flag beside the transceiver: two fields of a sheet say them, and definitions name each.
    pub partial: bool,
    pub relation: Relation,
}

// The networks of a sheet, in its order; unused slots are blank. Stays slots and a count, as `Network`.
#[derive(Clone, Copy)]
pub struct Settings {
    pub networks: [Network; Settings::MOST_NETWORKS],
    pub count: u8,
}

// S10: an id of one of the three kinds. Each kind has numbers of its own.
#[derive(Clone, Copy, Debug, PartialEq, Eq)]
pub enum Id {
    OfNetwork(u8),
    OfController(u8),
    OfTransceiver(u8),
}

impl Network {
    // A network has one to four controllers.
    pub const FEWEST_CONTROLLERS: usize = 1;

    pub const MOST_CONTROLLERS: usize = 4;
    // S5, S6, S8: controller ids, transceiver ids and thresholds are below these.
    pub const CONTROLLER_IDS: u8 = 32;

    pub const TRANSCEIVER_IDS: u8 = 8;

    pub const THRESHOLDS: u8 = 255;
    // S7: no delay and no ensure time is this.
    pub const NO_TIME: u16 = 0;

    #[tactic(auto, unfolding(crate::specs::Settings::blank_network))]
    pub fn blank() -> Network
        ensures { result ≡ blank_network }
    {
        Network {
            handle: 0,
            controllers: [0; Network::MOST_CONTROLLERS],
            count: 0,
            transceiver: None,
            short: 0,
            long: 0,
            ensure: 0,
            threshold: 0,
            partial: false,
            relation: Relation::Above,
        }
    }

    fn has_controller(self, id: u8) -> bool
        ensures { result ≡ member id (controllers_of self) }
    {
        lists::in_use(&self.controllers, self.count).contains(&id)
    }

    fn has_transceiver(self, id: u8) -> bool
        ensures { result ≡ has_transceiver self.transceiver id }
    {
        self.transceiver == Some(id)
    }

    // The network has this id.
    pub fn has(self, id: Id) -> bool
        ensures { result ≡ has id self }
    {
        match id {
            Id::OfNetwork(number) => self.handle == number,
            Id::OfController(number) => self.has_controller(number),
            Id::OfTransceiver(number) => self.has_transceiver(number),
        }
    }
}

impl Settings {
    pub const MOST_NETWORKS: usize = 8;

    pub fn blank() -> Settings
        ensures { result ≡ blank_settings }
    {
        Settings {
            networks: [Network::blank(); Settings::MOST_NETWORKS],
            count: 0,
        }
    }

    // The place of the first network that has this id, in the library's words.
    fn place_of(&self, id: Id) -> Option<usize>
        ensures found { result ≡ position (has id) (networks_of self.now) }
        ensures below { (i : ℕ) → result ≡ Some i → i < 8 }
    {
        lists::in_use(&self.networks, self.count)
            .iter()
            .position(|network| network.has(id))
    }

    // The first network that has this id.
    pub fn holder(&self, id: Id) -> Option<usize>
        ensures found { result ≡ holder_of id (networks_of self.now) }
        ensures below { (i : ℕ) → result ≡ Some i → i < 8 }
    {
        self.place_of(id)
    }

    // Some network has this id.
    pub fn uses(&self, id: Id) -> bool
        ensures { result ≡ used id (networks_of self.now) }
    {
        self.holder(id).is_some()
    }
}
