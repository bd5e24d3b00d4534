// Writing a sheet into a lent buffer, from its front. The length comes first, so that a refusal touches nothing.
#![tactic(auto)]

ghost use Rattle.std.specs.Prelude.{◌≡◌, [], ◌≤◌};
ghost use lib.ListN.{length};
ghost use Rattle.std.proofs.lemmas.List.Edits.{sets};
ghost use Rattle.writing.specs.Writer.{Room, Puts};
ghost use Rattle.settings.specs.Settings.{controllers_of};
ghost use Rattle.sheet.specs.Encode.{byte_field, times_field, encode_controllers, encode_transceiver, encode_relation, encode_network, encode};
ghost use Rattle.sheet.specs.Outcomes.{WriteOutcome};

use entries::Entry;
use settings::{Network, Relation, Settings};
use sheet::TooShort;

// ---- lengths

fn network_length(network: Network) -> usize
    ensures { (result ≡ length (encode_network network [])) × (result ≤ 45) }
{
    let controllers = lists::in_use(&network.controllers, network.count).len();
    let transceivers = usize::from(network.transceiver.is_some());
    let relations = usize::from(matches!(network.relation, Relation::AtOrAbove));
    Entry::FIXED_FIELDS + Entry::BYTE_FIELD * (controllers + transceivers + relations)
}

// The length of the sheet that settings have.
pub fn sheet_length(settings: Settings) -> usize
    ensures { result ≡ length (encode settings) }
{
    let mut total = 0;
    for network in lists::in_use(&settings.networks, settings.count) {
        total += network_length(*network);
    }
    total
}

// ---- fields, each stored at the place of a writer with room for it

// A lent buffer, and the place in it up to which it is written. Stays beside `text::Line`: they share two fields and three lines.
#[derive(Drop)]
struct Writer<'a> {
    buffer: &'a mut [u8],
    place: usize,
}

impl<'a> Writer<'a> {
    fn put(&mut self, bytes: &[u8])
        requires { Room self.old (length bytes.now) }
        ensures { Puts self.old bytes.now self.new }
    {
        let next = self.place + bytes.len();
        self.buffer[self.place..next].copy_from_slice(bytes);
        self.place = next;
    }

    fn put_byte_field(&mut self, tag: u8, value: u8)
        requires { Room self.old 4 }
        ensures { Puts self.old (byte_field tag value []) self.new }
    {
        let [high, low] = Entry::BYTE_LENGTH.to_be_bytes();
        self.put(&[tag, high, low, value]);
    }

    fn put_times(&mut self, short: u16, long: u16, ensure: u16)
        requires { Room self.old 9 }
        ensures { Puts self.old (times_field short long ensure []) self.new }
    {
        let [high, low] = Entry::TIMES_LENGTH.to_be_bytes();
        self.put(&[Entry::TIMES_TAG, high, low]);
        self.put(&short.to_be_bytes());
        self.put(&long.to_be_bytes());
        self.put(&ensure.to_be_bytes());
    }

    fn put_controllers(&mut self, network: Network)
        requires { Room self.old (length (encode_controllers (controllers_of network) [])) }
        ensures { Puts self.old (encode_controllers (controllers_of network) []) self.new }
    {
        for id in lists::in_use(&network.controllers, network.count) {
            self.put_byte_field(Entry::CONTROLLER_TAG, *id);
        }
    }

    fn put_transceiver(&mut self, transceiver: Option<u8>)
        requires { Room self.old (length (encode_transceiver transceiver [])) }
        ensures { Puts self.old (encode_transceiver transceiver []) self.new }
    {
        match transceiver {
            None => {}
            Some(id) => self.put_byte_field(Entry::TRANSCEIVER_TAG, id),
        }
    }

    fn put_relation(&mut self, relation: Relation)
        requires { Room self.old (length (encode_relation relation [])) }
        ensures { Puts self.old (encode_relation relation []) self.new }
    {
        match relation {
            Relation::Above => {}
            Relation::AtOrAbove => self.put_byte_field(Entry::RELATION_TAG, Entry::AT_OR_ABOVE),
        }
    }

    // S3: a network's fields, in their order.
    fn put_network(&mut self, network: Network)
        requires { Room self.old (length (encode_network network [])) }
        ensures { Puts self.old (encode_network network []) self.new }
    {
        self.put_byte_field(Entry::HANDLE_TAG, network.handle);
        self.put_controllers(network);
        self.put_transceiver(network.transceiver);
        self.put_times(network.short, network.long, network.ensure);
        self.put_byte_field(Entry::THRESHOLD_TAG, network.threshold);
        self.put_byte_field(Entry::PARTIAL_TAG, u8::from(network.partial));
        self.put_relation(network.relation);
    }
}

// ---- the sheet

fn put_networks(buffer: &mut [u8], settings: Settings)
    requires { length (encode settings) ≤ length buffer.old }
    ensures { buffer.new ≡ sets buffer.old 0 (encode settings) }
{
    let mut writer = Writer { buffer, place: 0 };
    for network in lists::in_use(&settings.networks, settings.count) {
        writer.put_network(*network);
    }
}

// H4, R18: the sheet of the settings, into a buffer from its front; or refused, where fewer bytes were lent than the sheet has.
pub fn write(settings: Settings, buffer: &mut [u8]) -> Result<usize, TooShort>
    ensures { WriteOutcome settings buffer.old result buffer.new }
{
    let length = sheet_length(settings);
    if buffer.len() < length {
        return Err(TooShort);
    }
    put_networks(buffer, settings);
    Ok(length)
}
