// Text into a buffer: bytes, numbers and records, each appended to the filled part of a lent buffer with room for it.
#![tactic(auto)]

ghost use Rattle.std.specs.Prelude.{◌≡◌, [], ◌∷◌, ◌+◌, ◌*◌, ◌≤◌, length};
ghost use Rattle.records.specs.Records.{records_at};
ghost use Rattle.text.specs.Text.{decimal, records_text};

use records::Record;

#[derive(Clone, Copy)]
pub struct Text {}

impl Text {
    pub const BLANK: u8 = 0x20;

    pub const COLON: u8 = 0x3A;

    pub const NEWLINE: u8 = 0x0A;
    // The most decimal digits of a number of 64 bits.
    pub const MOST_DIGITS: usize = 20;
}

// A lent buffer, and how much of it is filled.
#[derive(Drop)]
pub struct Line<'a> {
    pub bytes: &'a mut [u8],
    pub length: usize,
}

impl<'a> Line<'a> {
    ghost use Rattle.text.specs.Line.{HasRoom, Appended};

    // One byte.
    pub fn byte(&mut self, byte: u8)
        requires { HasRoom self.old 1 }
        ensures { Appended self.old (byte ∷ []) self.new }
    {
        self.bytes[self.length] = byte;
        self.length += 1;
    }

    // The bytes of a text.
    pub fn text(&mut self, text: &[u8])
        requires { HasRoom self.old (length text.now) }
        ensures { Appended self.old text.now self.new }
    {
        let end = self.length + text.len();
        self.bytes[self.length..end].copy_from_slice(text);
        self.length = end;
    }

    // A number in decimal, with room for just its digits.
    fn digits(&mut self, number: u64)
        requires { HasRoom self.old (length (decimal number)) }
        ensures { Appended self.old (decimal number) self.new }
    {
        let mut digits = [0u8; Text::MOST_DIGITS];
        let count = io::decimal(number, &mut digits);
        self.text(&digits[..count]);
    }

    // A number in decimal: at most twenty digits. It and `small` stay two: each counts its room by its type, which one generic would ask of callers.
    #[tactic(auto, using(crate::proofs::Laws::decimal_wide))]
    pub fn decimal(&mut self, number: u64)
        requires { HasRoom self.old 20 }
        ensures appended { Appended self.old (decimal number) self.new }
        ensures room { self.new.length ≤ self.old.length + 20 }
    {
        self.digits(number);
    }

    // A number of one byte: at most three digits.
    #[tactic(auto, using(crate::proofs::Laws::decimal_small))]
    pub fn small(&mut self, number: u8)
        requires { HasRoom self.old 3 }
        ensures appended { Appended self.old (decimal number) self.new }
        ensures room { self.new.length ≤ self.old.length + 3 }
    {
        self.digits(number as u64);
    }

    // A blank and a record.
    pub fn record(&mut self, handed: Record)
        requires { HasRoom self.old 12 }
        ensures appended { Appended self.old (records_text (handed ∷ [])) self.new }
        ensures room { self.new.length ≤ self.old.length + 12 }
    {
        self.byte(Text::BLANK);
        self.small(handed.kind);
        self.byte(Text::COLON);
        self.small(handed.target);
        self.byte(Text::COLON);
        self.small(handed.argument);
    }

    // So many records, as they stand at the front of a lent buffer, each after a blank. The count stays beside it: an outcome has it.
    pub fn records(&mut self, buffer: &[u8], count: usize)
        requires count_in_bounds { 3 * count ≤ length buffer.now }
        requires room { HasRoom self.old (12 * count) }
        ensures appended { Appended self.old (records_text (records_at count buffer.now)) self.new }
        ensures room { self.new.length ≤ self.old.length + 12 * count }
    {
        let (records, _) = buffer.as_chunks::<{ Record::SIZE }>();
        for &[kind, target, argument] in &records[..count] {
            self.record(Record {
                kind,
                target,
                argument,
            });
        }
    }
}
