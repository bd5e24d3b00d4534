// The fields of a sheet one by one: the tests that need no settings.
ghost use Rattle.std.specs.Prelude.{◌≡◌, ◌+◌, ◌≤◌};
ghost use lib.ListN.{length, take, drop};
ghost use Rattle.fields.specs.Fields.{ReadAt};
ghost use Rattle.entries.specs.Entries.{layout_of, byte_entry, wide, times_entry, overrun_fault, field_entry, entry_at};

use crate::{Entry, Fault, FoundEntry, Layout};
use fields::{Field, Reader};

// The tag is known and the length is that of the tag.
#[tactic(auto, unfolding(crate::specs::Entries::layout_of))]
pub fn layout_of(tag: u8, length: u16) -> Result<Layout, Fault>
    ensures { result ≡ layout_of tag length }
{
    let (layout, right) = match tag {
        Entry::TIMES_TAG => (Layout::Times, Entry::TIMES_LENGTH),
        Entry::HANDLE_TAG..=Entry::RELATION_TAG => (Layout::Byte, Entry::BYTE_LENGTH),
        _ => return Err(Fault::UnknownTag),
    };
    if length != right {
        return Err(Fault::WrongLength);
    }
    Ok(layout)
}

// A field whose value is one byte.
#[tactic(auto, unfolding(crate::specs::Entries::byte_entry))]
pub fn byte_entry(tag: u8, value: u8) -> Entry
    ensures { result ≡ byte_entry tag value }
{
    match tag {
        Entry::HANDLE_TAG => Entry::Handle(value),
        Entry::CONTROLLER_TAG => Entry::Controller(value),
        Entry::TRANSCEIVER_TAG => Entry::Transceiver(value),
        Entry::THRESHOLD_TAG => Entry::Threshold(value),
        Entry::PARTIAL_TAG => Entry::Partial(value),
        _ => Entry::Relation(value),
    }
}

// The number at a place of the bytes.
fn number_at(bytes: &[u8], at: usize) -> u16
    requires { at + 2 ≤ length bytes.now }
    ensures { result ≡ wide bytes.now at }
{
    fields::number(bytes[at], bytes[at + 1])
}

// The field of the times, whose value begins at a place.
fn times_entry(bytes: &[u8], at: usize) -> Entry
    requires { at + 6 ≤ length bytes.now }
    ensures { result ≡ times_entry (take 6 (drop at bytes.now)) }
{
    let long = at + Field::NUMBER;
    let ensure = long + Field::NUMBER;
    Entry::Times {
        short: number_at(bytes, at),
        long: number_at(bytes, long),
        ensure: number_at(bytes, ensure),
    }
}

// A field whose value runs past the end.
fn overrun_fault(tag: u8, length: u16) -> Fault
    ensures { result ≡ overrun_fault (layout_of tag length) }
{
    match layout_of(tag, length) {
        Ok(_) => Fault::Cut,
        Err(fault) => fault,
    }
}

// A whole field, whose value begins at a place.
fn whole_entry(bytes: &[u8], at: usize, tag: u8, length: u16) -> Entry
    requires { at + length ≤ lib.ListN.length bytes.now }
    ensures { result ≡ field_entry tag (take length (drop at bytes.now)) }
{
    match layout_of(tag, length) {
        Ok(Layout::Byte) => byte_entry(tag, bytes[at]),
        Ok(Layout::Times) => times_entry(bytes, at),
        Err(fault) => Entry::Bad(fault),
    }
}

// What stands at a place of a sheet.
pub fn entry_at(bytes: &[u8], at: usize) -> FoundEntry
    ensures { ReadAt entry_at bytes.now at result.entry result.next }
{
    let (entry, next) = match fields::field_at(bytes, at) {
        Field::End => (Entry::End, at),
        Field::Stub { .. } => (Entry::Bad(Fault::Cut), at),
        Field::Overrun { tag, length } => (Entry::Bad(overrun_fault(tag, length)), at),
        Field::Whole { tag, length, next } => {
            (whole_entry(bytes, at + Field::HEAD, tag, length), next)
        }
    };
    FoundEntry { entry, next }
}

// What stands at the place of a reader of a sheet.
pub fn next_entry<'a>(reader: Reader<'a>) -> FoundEntry
    ensures { ReadAt entry_at reader.entry.bytes.now reader.entry.place result.entry result.next }
{
    entry_at(reader.bytes, reader.place)
}
