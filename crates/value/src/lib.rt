// A value: NULL, OUT or a number within the range, and the kind and number that it is taken apart into.
#![tactic(auto)]

ghost use Rattle.std.specs.Prelude.{◌≡◌};
ghost use Rattle.circuit.specs.Value as circuit;
ghost use Rattle.value.specs.Meaning.{meaning, parts_meaning};

#[derive(Clone, Copy, PartialEq, Eq, Debug)]
pub enum Amount {
    // NULL: nothing recorded
    Null,
    // OUT: arithmetic left the range
    Out,
    Number(i64),
}

// UNK is none of these: a value is never missing. (A struct over the enum, with NULL and OUT as its constants: docs/DECISIONS.md, "Values and
// rules".)
#[derive(Clone, Copy, PartialEq, Eq, Debug)]
pub struct Value {
    pub amount: Amount,
}

// The range: numbers run from -LIMIT to LIMIT. The only place of the code that has its size; in_range's contract holds it to
// the definition's.
pub const LIMIT: i64 = 1_000_000_000_000_000;

const LOWEST: i64 = -LIMIT;

#[tactic(auto, unfolding(circuit::specs::Value::in_range, circuit::specs::Value::limit))]
pub fn in_range(n: i64) -> bool
    ensures { result ≡ circuit.in_range n }
{
    (LOWEST..=LIMIT).contains(&n)
}

// The most parents of a figure, and so the most values that a rule is given. The only place of the code that has their number.
pub const MAX_PARENTS: usize = 16;

impl Value {
    pub const NULL: Value = Value {
        amount: Amount::Null,
    };

    pub const OUT: Value = Value {
        amount: Amount::Out,
    };

    pub fn number(n: i64) -> Value
        ensures { meaning result ≡ circuit.num n }
    {
        Value {
            amount: Amount::Number(n),
        }
    }

    // An exact result: OUT if it is beyond the range. The only place where a rule tests the range.
    pub fn exact(n: i64) -> Value
        ensures { meaning result ≡ circuit.ranged n }
    {
        if in_range(n) {
            Value::number(n)
        } else {
            Value::OUT
        }
    }

    pub fn is_null(self) -> bool
        ensures { result ≡ circuit.is_null (meaning self) }
    {
        self == Value::NULL
    }

    pub fn is_out(self) -> bool
        ensures { result ≡ circuit.is_out (meaning self) }
    {
        self == Value::OUT
    }

    // 1 NULL, 2 OUT, 3 a number. (A number and not an enum: it is the kind that a table's record and C have.)
    pub fn kind(self) -> u8
        ensures { result ≡ circuit.kind_of (meaning self) }
    {
        match self.amount {
            Amount::Null => 1,
            Amount::Out => 2,
            Amount::Number(_) => 3,
        }
    }

    // The number, 0 where there is none: the number of a table's record, and of C.
    pub fn number_or_zero(self) -> i64
        ensures { result ≡ circuit.number_of (meaning self) }
    {
        match self.amount {
            Amount::Number(n) => n,
            _ => 0,
        }
    }

    // The value that was taken apart into a kind and a number. (Beside from_parts, since it tests nothing: the kind is that of a
    // record whose form was tested, or of a note. from_parts judges what C hands in.)
    pub fn of_parts(kind: u8, number: i64) -> Value
        ensures { meaning result ≡ circuit.of_parts kind number }
    {
        match kind {
            1 => Value::NULL,
            2 => Value::OUT,
            _ => Value::number(number),
        }
    }

    // A value from its kind and its number, if they are in form.
    #[tactic(auto, unfolding(circuit::specs::Value::parts_of))]
    pub fn from_parts(kind: u64, number: i64) -> Option<Value>
        ensures { parts_meaning result ≡ circuit.parts_of kind number }
    {
        match kind {
            1 if number == 0 => Some(Value::NULL),
            2 if number == 0 => Some(Value::OUT),
            3 if in_range(number) => Some(Value::number(number)),
            _ => None,
        }
    }

    // Whether two values are equal. (Beside the derived ==, for its contract: it is the machine's `same`, which callers cite.)
    pub fn same(self, other: Value) -> bool
        ensures { result ≡ circuit.same (meaning self) (meaning other) }
    {
        self == other
    }
}
