// Why a call is refused.
ghost use Rattle.std.specs.Prelude.{◌≡◌};
ghost use Rattle.plan.specs.Refusals.{number_of, value_of};
ghost use Rattle.plan.specs.declared.refusal.Refusal.TheVariants.{NoRoom};

use std::error::Error;
use std::fmt;

// Why a call is refused, with the value that is returned beside the number.
#[derive(Clone, Copy, Debug, PartialEq, Eq)]
pub enum Refusal {
    TooLong,
    Cut(usize),
    Misplaced(usize),
    UnknownTag(usize),
    BadLength(usize),
    OutOfRange(usize),
    TooMany(usize),
    Shared(usize),
    WrongLength(usize),
    BadValue(usize),
    NoSuchAtom(usize),
    NoRoom(usize),
    NoBlock(usize),
    BadText(usize),
    WrongCount(usize),
    TooManyVariables(usize),
}

impl Refusal {
    // The document's number.
    pub fn number(self) -> usize
        ensures { result ≡ number_of self }
    {
        match self {
            Refusal::TooLong => 1,
            Refusal::Cut(_) => 2,
            Refusal::Misplaced(_) => 3,
            Refusal::UnknownTag(_) => 4,
            Refusal::BadLength(_) => 5,
            Refusal::OutOfRange(_) => 6,
            Refusal::TooMany(_) => 7,
            Refusal::Shared(_) => 8,
            Refusal::WrongLength(_) => 9,
            Refusal::BadValue(_) => 10,
            Refusal::NoSuchAtom(_) => 11,
            Refusal::NoRoom(_) => 12,
            Refusal::NoBlock(_) => 13,
            Refusal::BadText(_) => 20,
            Refusal::WrongCount(_) => 21,
            Refusal::TooManyVariables(_) => 22,
        }
    }

    // The value that is returned beside the number.
    pub fn value(self) -> usize
        ensures { result ≡ value_of self }
    {
        match self {
            Refusal::TooLong => 0,
            Refusal::Cut(offset) => offset,
            Refusal::Misplaced(offset) => offset,
            Refusal::UnknownTag(offset) => offset,
            Refusal::BadLength(offset) => offset,
            Refusal::OutOfRange(offset) => offset,
            Refusal::TooMany(offset) => offset,
            Refusal::Shared(offset) => offset,
            Refusal::WrongLength(variables) => variables,
            Refusal::BadValue(place) => place,
            Refusal::NoSuchAtom(atoms) => atoms,
            Refusal::NoRoom(needed) => needed,
            Refusal::NoBlock(atom) => atom,
            Refusal::BadText(offset) => offset,
            Refusal::WrongCount(offset) => offset,
            Refusal::TooManyVariables(offset) => offset,
        }
    }
}

// The number and the value, as a program prints them.
impl fmt::Display for Refusal {
    fn fmt<W: fmt::Write>(&self, f: &mut fmt::Formatter<W>) -> fmt::Result {
        write!(f, "{} {}", self.number(), self.value())
    }
}

impl Error for Refusal {}

// A lent buffer is too short for the exact answer: the length that it needs.
#[derive(Clone, Copy, Debug, PartialEq, Eq)]
pub struct Short(pub usize);

impl From<Short> for Refusal {
    ghost from_gives = { λ short refusal. refusal ≡ NoRoom short.0 };

    fn from(short: Short) -> Refusal {
        Refusal::NoRoom(short.0)
    }
}
