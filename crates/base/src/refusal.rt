// Why a call was refused.
ghost use Rattle.std.specs.Prelude.{◌≡◌, Some};
ghost use Rattle.base.specs.Refusals.{number_of, shown};

use std::fmt;

// The closed list of causes. Later causes are added at its end.
#[derive(Clone, Copy, PartialEq, Eq, Debug)]
pub enum Cause {
    KeyLength = 1,
    TagLength = 2,
    NonceLength = 3,
    AdTooLong = 4,
    PageTooLong = 5,
    BodyTooShort = 6,
    OutputTooShort = 7,
    NotGenuine = 8,
    CardTooLong = 9,
    PageOverRecord = 10,
    LastPlace = 11,
    PartLength = 12,
    RecordForm = 13,
    WrongPlace = 14,
    VolumeClosed = 15,
}

// The cause, the layer that found it, and a figure, mostly the length that was measured.
#[derive(Clone, Copy, PartialEq, Eq, Debug)]
pub struct Refusal {
    pub cause: Cause,
    // Kept a number: a scheme from outside names layers of its own.
    pub layer: u8,
    pub figure: usize,
}

impl Cause {
    // The number that a service engineer reads.
    pub fn number(self) -> u8
        ensures { result ≡ number_of self }
    {
        u8::from(self)
    }
}

impl From<Cause> for u8 {
    ghost from_gives = { λ cause n. n ≡ number_of cause };

    fn from(cause: Cause) -> Self {
        cause as u8
    }
}

// `no`, and the cause's number, the layer and the figure.
impl fmt::Display for Refusal {
    ghost output = { λ e. Some (shown e) };

    fn fmt<W: fmt::Write>(&self, f: &mut fmt::Formatter<W>) -> fmt::Result {
        let cause = self.cause.number();
        write!(f, "no {cause} {} {}", self.layer, self.figure)
    }
}
