// The causes for which a call, a sheet or a day is refused, and where in a sheet the refusal was found.
#![tactic(auto)]

ghost use Rattle.std.specs.Prelude.{◌≡◌};
ghost use Rattle.cause.specs.Cause.{number_of};

// Each with its number.
#[derive(Clone, Copy, PartialEq, Eq, Debug)]
pub enum Cause {
    Cut = 1,
    Tag = 2,
    LengthOrName = 3,
    EditionOrCount = 4,
    Rule = 5,
    Parent = 6,
    Level = 7,
    Lengths = 8,
    Index = 9,
    Form = 10,
    NoItem = 11,
    WrongItem = 12,
    Amount = 13,
    NoMark = 14,
    Scratch = 15,
    DayField = 16,
    List = 17,
    Swap = 18,
    TooLong = 19,
}

impl Cause {
    // The number that C and a day's lines give. (A method, and no From: what it means stands at the places that ask for a number.)
    pub fn number(self) -> u64
        ensures { result ≡ number_of self }
    {
        self as u64
    }
}

// A refusal: its cause, and the offset of the field at which it was found, 0 where no field has it. (No Option: C and the definitions give 0,
// which is the first field's offset too.)
#[derive(Clone, Copy, PartialEq, Eq, Debug)]
pub struct Fault {
    pub cause: Cause,
    pub offset: usize,
}

impl From<Cause> for Fault {
    ghost from_gives = { λ c f. f ≡ record { cause = c; offset = 0 } };

    fn from(cause: Cause) -> Fault {
        Fault { cause, offset: 0 }
    }
}
