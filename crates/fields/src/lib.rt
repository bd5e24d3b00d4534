// Fields of lent bytes, and a reader that keeps its place among them.
#![tactic(auto)]

ghost use Rattle.std.specs.Prelude.{◌≡◌, ◌+◌, ◌*◌, drop};
ghost use Rattle.fields.specs.Fields.{front};

// What stands at a place of the bytes. Stays an enum: its four cases are those of `front`, and what a cut field means is for each reader to say.
#[derive(Clone, Copy)]
pub enum Field {
    // No byte is left.
    End,
    // One or two bytes are left, too few for a tag and a length.
    Stub { tag: u8 },
    // The value runs past the last byte.
    Overrun { tag: u8, length: u16 },
    // A whole field; what follows it begins at the next place.
    Whole { tag: u8, length: u16, next: usize },
}

impl Field {
    // The bytes of a tag and a length.
    pub const HEAD: usize = 3;
    // How far from the tag the length stands.
    pub const LENGTH: usize = 1;
    // The bytes of a number.
    pub const NUMBER: usize = 2;
}

// S1: the number that two bytes are, the high byte first.
pub fn number(high: u8, low: u8) -> u16
    ensures { result ≡ high * 256 + low }
{
    u16::from_be_bytes([high, low])
}

// S1: the field at a place of the bytes. Past the last byte there is none.
pub fn field_at(bytes: &[u8], at: usize) -> Field
    ensures { result ≡ front at (drop at bytes.now) }
{
    if bytes.len() <= at {
        return Field::End;
    }
    let left = bytes.len() - at;
    let tag = bytes[at];
    if left < Field::HEAD {
        return Field::Stub { tag };
    }
    let length = number(bytes[at + 1], bytes[at + 2]);
    let value = left - Field::HEAD;
    if value < length as usize {
        return Field::Overrun { tag, length };
    }
    Field::Whole {
        tag,
        length,
        next: at + Field::HEAD + length as usize,
    }
}

// S13: a reader has the bytes that were lent, and the place in them up to which they are read.
// Stays a slice and a place: K5 and S13 say both, and a refusal names the place.
#[derive(Clone, Copy)]
pub struct Reader<'a> {
    pub bytes: &'a [u8],
    pub place: usize,
}

impl<'a> Reader<'a> {
    // A reader at the first byte.
    pub fn new(bytes: &'a [u8]) -> Reader<'a>
        ensures { (result.bytes ≡ bytes.entry) × (result.place ≡ 0) }
    {
        Reader { bytes, place: 0 }
    }

    // The reader, moved on to a place.
    pub fn moved_to(self, place: usize) -> Reader<'a>
        ensures { (result.bytes ≡ self.entry.bytes) × (result.place ≡ place) }
    {
        Reader { place, ..self }
    }
}
