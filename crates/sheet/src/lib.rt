// What reading a settings sheet and writing it give: types and definitions. The code is in `reading` and `writing`.
#![tactic(auto)]

ghost use Rattle.std.specs.Prelude.{◌≡◌, Err};
ghost use Rattle.sheet.specs.Numbers.{verdict_number, written_number};

use entries::Fault;
use settings::Settings;

// H4: the lent buffer is too short for the sheet.
#[derive(Clone, Copy, Debug, PartialEq, Eq)]
pub struct TooShort;

impl From<TooShort> for u8 {
    ghost from_gives = { λ short n. n ≡ written_number (Err short) };

    fn from(_short: TooShort) -> u8 {
        0x20
    }
}

// R1, R9: the number of what writing a sheet gives.
pub fn written_number(written: Result<usize, TooShort>) -> u8
    ensures { result ≡ written_number written }
{
    match written {
        Ok(_) => 0,
        Err(short) => short.into(),
    }
}

// R1: the number of what reading says of a sheet.
pub fn verdict_number(verdict: Result<(), Fault>) -> u8
    ensures { result ≡ verdict_number verdict }
{
    match verdict {
        Ok(()) => 0,
        Err(fault) => fault.into(),
    }
}

// What reading a sheet gives: it is accepted, or why not. Stays a struct, with the answer a `Result` in it: the place is told beside both answers, and
// `decode`, `refused_at` and the theorems on them speak of the blank settings beside a refusal.
#[derive(Clone, Copy)]
pub struct Reading {
    pub answer: Result<(), Fault>,
    pub place: usize,
    pub settings: Settings,
}

impl Reading {
    // The number of the answer.
    pub fn number(self) -> u8
        ensures { result ≡ verdict_number self.answer }
    {
        verdict_number(self.answer)
    }
}
