// The figures to check, and shares at both ends of the range, worked out by the code of the rules: a line for each.
#![tactic(auto)]

ghost use Rattle.std.specs.Prelude.{◌≡◌, true, ◌≤◌, length, map};
ghost use Rattle.circuit.specs.Rules as rules;
ghost use Rattle.value.specs.Meaning.{meaning, meanings};
ghost use Rattle.rules.specs.Operations.{operation_meaning, Applied};
ghost use Rattle.figures.specs.Figures.{tested};

use rules::Operation;
use value::{Amount, LIMIT, MAX_PARENTS, Value};

// A value as the printer writes it, but NULL by its name.
fn write_value(rt: &impl Print, v: Value) {
    if v.is_null() {
        let _ = print!(rt; "NULL");
        return;
    }
    let mut scratch = [0u8; printer::LEAST_SCRATCH];
    let part = printer::print(u64::from(v.kind()), v.number_or_zero(), &mut scratch);
    let _ = rt.write_all(part);
}

fn write_parents(rt: &impl Print, parents: &[Value]) {
    for (i, v) in parents.iter().enumerate() {
        if i > 0 {
            let _ = print!(rt; ", ");
        }
        write_value(rt, *v);
    }
}

// The value, or OUT if its number is beyond the range.
fn in_form(v: Value) -> Value
    ensures { meaning result ≡ tested (meaning v) }
{
    match v.amount {
        Amount::Number(n) => Value::exact(n),
        _ => v,
    }
}

// What the rule gives on the parents' values.
#[tactic(auto, unfolding(circuit::specs::Rules::max_parents))]
fn worked(op: Operation, parents: &[Value]) -> Value
    requires few { length parents.now ≤ rules.max_parents }
    requires takes { rules.count_allowed (operation_meaning op) (length parents.now) ≡ true }
    ensures { Applied op (map tested (meanings parents.now)) result }
{
    // a fixed array of which the first are used, since there is no heap
    let mut values = [Value::NULL; MAX_PARENTS];
    for (i, v) in parents.iter().enumerate() {
        values[i] = in_form(*v);
    }
    rules::apply(op, &values[..parents.len()])
}

// A line: the rule's name, the parents' values, and what the rule gives on them. (The code and no Operation, so that a refused one is
// shown too; name and code stand side by side in each call, and in no table: most of the rules have one call.)
fn figure(rt: &impl Print, name: &str, code: u8, parents: &[Value])
    requires { length parents.now ≤ rules.max_parents }
{
    let _ = print!(rt; "{name}(");
    write_parents(rt, parents);
    let _ = print!(rt; ") = ");
    match rules::operation_of(code, parents.len()) {
        Some(op) => write_value(rt, worked(op, parents)),
        None => {
            let _ = print!(rt; "refused");
        }
    }
    let _ = println!(rt);
}

// Shares of a number: by 0, 1, 9,999 and 10,000 parts of the whole.
#[tactic(auto, unfolding(circuit::specs::Rules::max_parents))]
fn shares(rt: &impl Print, n: i64) {
    for parts in [0, 1, 9999, 10000] {
        figure(rt, "share", 5, &[Value::number(n), Value::number(parts)]);
    }
}

// Choices by their first parent: OUT, NULL, above 0 and not; what is not picked counts for nothing.
#[tactic(auto, unfolding(circuit::specs::Rules::max_parents))]
fn choices(rt: &impl Print) {
    let none = Value::NULL;
    let out = Value::OUT;
    let zero = Value::number(0);
    let one = Value::number(1);
    let two = Value::number(2);
    let seven = Value::number(7);
    let nine = Value::number(9);
    for parents in [
        [zero, seven, nine],
        [out, one, two],
        [none, out, out],
        [one, seven, out],
        [zero, out, nine],
        [one, out, nine],
        [two, none, nine],
        [Value::number(-1), Value::number(4), none],
    ] {
        figure(rt, "choice", 6, &parents);
    }
}

#[tactic(auto, unfolding(circuit::specs::Rules::max_parents))]
fn main(rt: HostRuntime) {
    let none = Value::NULL;
    let top = Value::number(LIMIT);
    let one = Value::number(1);
    let three = Value::number(3);
    let minus_one = Value::number(-1);
    figure(&rt, "sum", 1, &[none, none]);
    figure(&rt, "sum", 1, &[Value::number(5), none]);
    figure(&rt, "sum", 1, &[top, one]);
    figure(&rt, "sum", 1, &[top, one, minus_one]);
    figure(&rt, "difference", 2, &[none, three]);
    figure(&rt, "share", 5, &[minus_one, Value::number(5000)]);
    figure(&rt, "share", 5, &[Value::number(7), Value::number(10001)]);
    choices(&rt);
    figure(&rt, "count", 7, &[none, Value::number(4)]);
    figure(&rt, "at least", 8, &[three, three]);
    figure(&rt, "smallest", 3, &[none, Value::number(-2)]);
    for n in [LIMIT, LIMIT - 1, 1 - LIMIT, -LIMIT] {
        shares(&rt, n);
    }
}
