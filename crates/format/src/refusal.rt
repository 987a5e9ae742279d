ghost use Rattle.std.specs.Prelude.{◌≡◌, Some};
ghost use Rattle.format.specs.Refusals.{number_of, shown_as};

use std::fmt;

// Why a file was refused, by number.
#[derive(Clone, Copy, Debug, PartialEq, Eq)]
pub enum Refusal {
    NoCommand = 1,
    CutOff = 2,
    OutOfTurn = 3,
    OverCount = 4,
    Outside = 5,
    Undefined = 6,
    Taken = 7,
    MarkMissing = 8,
    Unfinished = 9,
}

// A refusal and the offset of the command that met it.
#[derive(Clone, Copy, Debug, PartialEq, Eq)]
pub struct Refused {
    pub refusal: Refusal,
    pub offset: u32,
}

impl Refusal {
    // Its discriminant, by a name: `u8::from(refusal)` would not say what the number is.
    pub fn number(self) -> u8
        ensures { result ≡ number_of self }
    {
        self as u8
    }
}

impl Refused {
    // The refusal at that offset.
    pub(crate) fn at(refusal: Refusal, offset: u16) -> Refused
        ensures { result ≡ record { refusal = refusal; offset = offset } }
    {
        Refused {
            refusal,
            offset: u32::from(offset),
        }
    }
}

impl fmt::Display for Refused {
    ghost output = { λ r. Some (shown_as r) };

    fn fmt<W: fmt::Write>(&self, f: &mut fmt::Formatter<W>) -> fmt::Result {
        let number = self.refusal.number();
        let offset = self.offset;
        write!(f, "{number} at {offset}")
    }
}
