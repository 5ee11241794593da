// The eight rules of the figures: the operation of a rule code, and its result on the parents' values in their listed order.
#![tactic(auto)]

ghost use Rattle.std.specs.Prelude.{◌≡◌, true, [], ◌∷◌, length, ◌≤◌, ◌<◌, ◌+◌, ◌*◌, ◌/◌, pos, ◌-ℤ◌, ◌*ℤ◌};
ghost use Rattle.std.specs.Int.Signed.{le_z};
ghost use Rattle.circuit.specs.Value as circuit;
ghost use Rattle.circuit.specs.Rules as rules;
ghost use Rattle.circuit.specs.WellFormed.{all_well_formed};
ghost use Rattle.value.specs.Meaning.{meaning, meanings};
ghost use Rattle.rules.specs.Operations.{operation_meaning, operation_in, Applied};

use value::{Amount, MAX_PARENTS, Value};

// A share is counted in parts of this whole.
const WHOLE: u64 = 10_000;

#[derive(Clone, Copy, PartialEq, Eq, Debug)]
pub enum Operation {
    Sum,
    Difference,
    Smallest,
    Largest,
    Share,
    Choice,
    Count,
    AtLeast,
}

// The operation of a rule code with a number of parents. The only place of the code that has the codes, and the counts of each rule.
#[tactic(auto, using(crate::proofs::Operations::counts), unfolding(circuit::specs::Rules::coded, circuit::specs::Rules::count_allowed, circuit::specs::Rules::operation_of))]
pub fn operation_of(code: u8, count: usize) -> Option<Operation>
    ensures { operation_in result ≡ rules.operation_of code count }
{
    match (code, count) {
        (1, 1..=MAX_PARENTS) => Some(Operation::Sum),
        (2, 2) => Some(Operation::Difference),
        (3, 1..=MAX_PARENTS) => Some(Operation::Smallest),
        (4, 1..=MAX_PARENTS) => Some(Operation::Largest),
        (5, 2) => Some(Operation::Share),
        (6, 3) => Some(Operation::Choice),
        (7, 1..=MAX_PARENTS) => Some(Operation::Count),
        (8, 2) => Some(Operation::AtLeast),
        _ => None,
    }
}

#[tactic(auto, unfolding(circuit::specs::Rules::apply, circuit::specs::Rules::any_out))]
fn difference(a: Value, b: Value) -> Value
    requires a_formed { circuit.well_formed (meaning a) ≡ true }
    requires b_formed { circuit.well_formed (meaning b) ≡ true }
    ensures { meaning result ≡ rules.apply rules.difference (meaning a ∷ meaning b ∷ []) }
{
    match (a.amount, b.amount) {
        (Amount::Out, _) | (_, Amount::Out) => Value::OUT,
        (Amount::Null, Amount::Null) => Value::NULL,
        _ => Value::exact(a.number_or_zero() - b.number_or_zero()),
    }
}

// (m * parts + more) / WHOLE, by products of which none is larger than m or WHOLE * WHOLE. (In two parts, so that each product
// fits a signed number too: the one product, up to 10^19, fits an unsigned one alone.)
#[tactic(auto, using(crate::proofs::Shares::two_parts), unfolding(circuit::specs::Rules::whole, circuit::specs::Value::limit))]
fn scaled(m: u64, parts: u64, more: u64) -> u64
    requires amount { m ≤ circuit.limit }
    requires parts { parts ≤ rules.whole }
    requires more { more < rules.whole }
    ensures { result ≡ (m * parts + more) / rules.whole }
{
    m / WHOLE * parts + (m % WHOLE * parts + more) / WHOLE
}

// The share of x, rounded down: what lies below 0 is rounded away from it.
#[tactic(auto, unfolding(circuit::specs::Rules::whole))]
fn part_of(x: i64, parts: i64) -> i64
    requires in_range { circuit.in_range x ≡ true }
    requires low { le_z (pos 0) parts ≡ true }
    requires high { le_z parts (pos rules.whole) ≡ true }
    ensures { result ≡ rules.floor_div (x *ℤ parts) rules.whole }
{
    let size = x.unsigned_abs();
    if x < 0 {
        -(scaled(size, parts as u64, WHOLE - 1) as i64)
    } else {
        scaled(size, parts as u64, 0) as i64
    }
}

#[tactic(auto, unfolding(circuit::specs::Rules::whole))]
fn share_of(x: i64, parts: i64) -> Value
    requires { circuit.in_range x ≡ true }
    ensures { meaning result ≡ rules.share_of x parts }
{
    if !(0..=WHOLE as i64).contains(&parts) {
        return Value::OUT;
    }
    Value::exact(part_of(x, parts))
}

#[tactic(auto, unfolding(circuit::specs::Rules::apply, circuit::specs::Rules::any_out))]
fn share(a: Value, b: Value) -> Value
    requires { circuit.well_formed (meaning a) ≡ true }
    ensures { meaning result ≡ rules.apply rules.share (meaning a ∷ meaning b ∷ []) }
{
    match (a.amount, b.amount) {
        (Amount::Out, _) | (_, Amount::Out) => Value::OUT,
        (Amount::Number(x), Amount::Number(parts)) => share_of(x, parts),
        _ => Value::NULL,
    }
}

// The only rule that is not OUT for every parent that is: what is not picked counts for nothing.
#[tactic(auto, unfolding(circuit::specs::Rules::apply))]
fn choice(a: Value, b: Value, c: Value) -> Value
    ensures { meaning result ≡ rules.apply rules.choice (meaning a ∷ meaning b ∷ meaning c ∷ []) }
{
    match a.amount {
        Amount::Null => Value::NULL,
        Amount::Out => Value::OUT,
        Amount::Number(n) => if 0 < n { b } else { c },
    }
}

// (The match is share's again: one function for both would take a closure of two numbers, and a clause of what that gives.)
#[tactic(auto, unfolding(circuit::specs::Rules::apply, circuit::specs::Rules::any_out))]
fn at_least(a: Value, b: Value) -> Value
    ensures { meaning result ≡ rules.apply rules.at_least (meaning a ∷ meaning b ∷ []) }
{
    match (a.amount, b.amount) {
        (Amount::Out, _) | (_, Amount::Out) => Value::OUT,
        (Amount::Number(x), Amount::Number(y)) => Value::exact(i64::from(x >= y)),
        _ => Value::NULL,
    }
}

// A rule's result on the parents' values, in order.
#[tactic(auto, using(crate::proofs::Applying::applied), unfolding(circuit::specs::Rules::count_allowed))]
pub fn apply(op: Operation, values: &[Value]) -> Value
    requires takes { rules.count_allowed (operation_meaning op) (length values.now) ≡ true }
    requires formed { all_well_formed (meanings values.now) ≡ true }
    ensures { Applied op (meanings values.now) result }
{
    match op {
        Operation::Sum => tally::sum(values),
        Operation::Difference => difference(values[0], values[1]),
        Operation::Smallest => tally::smallest(values),
        Operation::Largest => tally::largest(values),
        Operation::Share => share(values[0], values[1]),
        Operation::Choice => choice(values[0], values[1], values[2]),
        Operation::Count => tally::count(values),
        Operation::AtLeast => at_least(values[0], values[1]),
    }
}
