// The rules for any number of parents: sum, smallest, largest and count. A tally takes the values in one after the other.
#![tactic(auto)]

ghost use Rattle.std.specs.Prelude.{◌≡◌, true, ℤ, pos, ◌≤◌, length};
ghost use Rattle.circuit.specs.Value as circuit;
ghost use Rattle.circuit.specs.Rules as rules;
ghost use Rattle.circuit.specs.WellFormed.{all_well_formed};
ghost use Rattle.value.specs.Meaning.{meaning, meanings};
ghost use Rattle.tally.specs.Tally.{Room, empty, counted, taken, taken_all, rule_result};

use value::{Amount, Value};

// What the rules for any number of parents take from their values.
#[derive(Clone, Copy, PartialEq, Eq, Debug)]
struct Tally {
    // whether any is OUT
    out: bool,
    // how many are numbers, and of these the sum, the smallest and the largest, 0 while there is none (an option of the four would
    // be no plainer: count_in and ruled would match where they test the count, and the definition of a tally wants a second record)
    count: u64,
    total: i64,
    least: i64,
    greatest: i64,
}

impl Tally {
    // The tally of no values.
    const EMPTY: Tally = Tally {
        out: false,
        count: 0,
        total: 0,
        least: 0,
        greatest: 0,
    };

    // One more number.
    #[tactic(auto, unfolding(circuit::specs::Rules::max_parents))]
    fn count_in(self, n: i64) -> Tally
        requires room { Room self }
        requires in_range { circuit.in_range n ≡ true }
        ensures { result ≡ counted self n }
    {
        if self.count == 0 {
            return Tally {
                count: 1,
                total: n,
                least: n,
                greatest: n,
                ..self
            };
        }
        Tally {
            count: self.count + 1,
            total: self.total + n,
            least: self.least.min(n),
            greatest: self.greatest.max(n),
            ..self
        }
    }

    // One more value: NULL leaves the tally as it is, OUT is noted.
    fn take_in(self, v: Value) -> Tally
        requires room { Room self }
        requires formed { circuit.well_formed (meaning v) ≡ true }
        ensures { result ≡ taken self (meaning v) }
    {
        match v.amount {
            Amount::Null => self,
            Amount::Out => Tally { out: true, ..self },
            Amount::Number(n) => self.count_in(n),
        }
    }
}

// The tally of the values. (few and formed stand in each contract from here on: as an invariant of Value, formed would ask of each call of
// Value::number, which takes any number, that this one is in the range.)
#[tactic(auto, unfolding(crate::specs::Tally::taken_all))]
fn tally_of(values: &[Value]) -> Tally
    requires few { length values.now ≤ rules.max_parents }
    requires formed { all_well_formed (meanings values.now) ≡ true }
    ensures { result ≡ taken_all empty (meanings values.now) }
{
    let mut t = Tally::EMPTY;
    for v in values {
        t = t.take_in(*v);
    }
    t
}

// The result of the rule that picks its number out of the tally.
fn ruled<F: FnOnce(Tally) -> i64>(values: &[Value], pick: F) -> Value
    requires few { length values.now ≤ rules.max_parents }
    requires formed { all_well_formed (meanings values.now) ≡ true }
    requires callable { F.pre pick (taken_all empty (meanings values.now)) }
    ensures { (z : ℤ) × F.post pick (taken_all empty (meanings values.now)) z × (meaning result ≡ rule_result (taken_all empty (meanings values.now)) z) }
{
    let t = tally_of(values);
    let n = pick(t);
    if t.out {
        return Value::OUT;
    }
    if t.count == 0 {
        return Value::NULL;
    }
    Value::exact(n)
}

pub fn sum(values: &[Value]) -> Value
    requires few { length values.now ≤ rules.max_parents }
    requires formed { all_well_formed (meanings values.now) ≡ true }
    ensures { meaning result ≡ rules.apply rules.sum (meanings values.now) }
{
    ruled(values, |t| t.total)
}

pub fn smallest(values: &[Value]) -> Value
    requires few { length values.now ≤ rules.max_parents }
    requires formed { all_well_formed (meanings values.now) ≡ true }
    ensures { meaning result ≡ rules.apply rules.smallest (meanings values.now) }
{
    ruled(values, |t| t.least)
}

pub fn largest(values: &[Value]) -> Value
    requires few { length values.now ≤ rules.max_parents }
    requires formed { all_well_formed (meanings values.now) ≡ true }
    ensures { meaning result ≡ rules.apply rules.largest (meanings values.now) }
{
    ruled(values, |t| t.greatest)
}

#[tactic(auto, unfolding(circuit::specs::Rules::max_parents))]
pub fn count(values: &[Value]) -> Value
    requires few { length values.now ≤ rules.max_parents }
    requires formed { all_well_formed (meanings values.now) ≡ true }
    ensures { meaning result ≡ rules.apply rules.count (meanings values.now) }
{
    ruled(
        values,
        |t: Tally| -> i64
            requires { t.count ≤ rules.max_parents }
            ensures { result ≡ pos t.count }
        { t.count as i64 },
    )
}
