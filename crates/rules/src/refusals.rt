// Why an entry refuses, and why an inner function can't do what it is asked for. specs/Refusal.antt has document 01's numbers.
ghost use Rattle.std.specs.Prelude.{◌≡◌};

use std::error::Error;
use std::fmt;

// Document 01, "Refusals in order".
#[derive(Clone, Copy, Debug, PartialEq, Eq)]
pub enum Refusal {
    // 1: the shape isn't accepted.
    BadShape,
    // 2: a lent buffer hasn't its exact length; a record is longer than the data columns.
    BadLength,
    // 3: a node isn't 1 to n, a fraction is asked of the failed node itself, or a bit above n is lost.
    BadNode,
    // 4: more than r nodes are lost.
    TooManyLost,
    // 5: the survivors belong to no whole stripe.
    NoWholeStripe,
    // 6: a pack's header isn't one, or the pack is shorter than its entries.
    BadHeader,
    // 7: an entry of a pack has a wrong node or padding.
    BadEntry,
    // 8: an offset, the total or the length of a pack is wrong.
    BadLayout,
    // 9: a division by 0.
    DivisionByZero,
}

impl Refusal {
    ghost use Rattle.rules.specs.Refusal.{number_of};

    // Document 01's number.
    pub fn number(self) -> u8
        ensures { result ≡ number_of self }
    {
        match self {
            Refusal::BadShape => 1,
            Refusal::BadLength => 2,
            Refusal::BadNode => 3,
            Refusal::TooManyLost => 4,
            Refusal::NoWholeStripe => 5,
            Refusal::BadHeader => 6,
            Refusal::BadEntry => 7,
            Refusal::BadLayout => 8,
            Refusal::DivisionByZero => 9,
        }
    }
}

impl From<Refusal> for u32 {
    ghost use Rattle.std.specs.Prelude.{◌≡◌};
    ghost use Rattle.rules.specs.Refusal.{number_of};

    ghost from_gives = { λ refusal number. number ≡ number_of refusal };

    fn from(refusal: Refusal) -> u32 {
        u32::from(refusal.number())
    }
}

impl fmt::Display for Refusal {
    ghost use Rattle.std.specs.Prelude.{Some};
    ghost use Rattle.std.specs.Fmt.{decimal};
    ghost use Rattle.rules.specs.Refusal.{number_of};

    ghost output = { λ refusal. Some (decimal (number_of refusal)) };

    fn fmt<W: fmt::Write>(&self, f: &mut fmt::Formatter<W>) -> fmt::Result {
        write!(f, "{}", self.number())
    }
}

impl Error for Refusal {}

// What an inner function is given doesn't fit together: lengths, places or points. It then writes nothing.
#[derive(Clone, Copy, Debug, PartialEq, Eq)]
pub struct Misfit;
