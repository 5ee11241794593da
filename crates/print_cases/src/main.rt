// Prints a fixed set of values, what turns the printer back, and the digits of numbers on both sides of each power of ten.
#![tactic(auto)]

ghost use Rattle.std.specs.Prelude.{◌≡◌, ◌≤◌, length};
ghost use Rattle.printer.specs.Printing.{part_of};
ghost use Rattle.field.specs.Bytes.{over};

use value::LIMIT;

fn line(rt: &impl Print, text: &[u8]) {
    let _ = rt.write_all(text);
    let _ = rt.write_all(b"\n");
}

// The part that the printer hands back.
fn show(rt: &impl Print, kind: u64, number: i64) {
    let mut scratch = [b'.'; printer::LEAST_SCRATCH];
    let part = printer::print(kind, number, &mut scratch);
    line(rt, part);
}

// print_into's answer, and then all the scratch bytes.
fn show_all(rt: &impl Print, kind: u64, number: i64, scratch: &mut [u8])
    ensures { scratch.new ≡ over (part_of kind number (length scratch.old)) scratch.old }
{
    match printer::print_into(kind, number, scratch) {
        Ok(n) => {
            let _ = print!(rt; "length {n} ");
        }
        Err(cause) => {
            let cause = cause.number();
            let _ = print!(rt; "refused {cause} ");
        }
    }
    line(rt, scratch);
}

// One byte of scratch too few.
const TOO_FEW: usize = printer::LEAST_SCRATCH - 1;

// The same in so many bytes of scratch.
fn show_in<const BYTES: usize>(rt: &impl Print, kind: u64, number: i64)
    requires { BYTES ≤ 20 }
{
    let mut scratch = [b'.'; BYTES];
    show_all(rt, kind, number, &mut scratch);
}

// The digits of a number from the second byte on, with the bytes before and after them.
#[tactic(auto, using(decimal::proofs::Digits::length_word))]
fn show_digits(rt: &impl Print, m: u64) {
    let mut bytes = [b'.'; decimal::MOST_DIGITS + 2];
    decimal::put_digits(m, 1, &mut bytes);
    line(rt, &bytes);
}

// Both sides of each power of ten, and the digits' most.
fn all_lengths(rt: &impl Print) {
    for k in 0..20 {
        let power = 10u64.pow(k);
        show_digits(rt, power - 1);
        show_digits(rt, power);
    }
    show_digits(rt, 9_876_543_210);
    show_digits(rt, u64::MAX);
}

const NUMBERS: [i64; 15] = [
    0,
    1,
    -1,
    9,
    -9,
    10,
    99,
    100,
    -100,
    1_024,
    987_654_321,
    LIMIT - 1,
    LIMIT,
    1 - LIMIT,
    -LIMIT,
];

// The kinds and numbers of calls that are taken, and of calls that are turned back.
const PRINTED: [(u64, i64); 10] = [
    (3, -120),
    (3, -LIMIT),
    (1, 0),
    (2, 0),
    (0, 0),
    (4, 0),
    (1, 1),
    (2, -1),
    (3, LIMIT + 1),
    (3, -1 - LIMIT),
];

fn main(rt: HostRuntime) {
    for number in NUMBERS {
        show(&rt, 3, number);
    }
    for kind in [1, 2, 0] {
        show(&rt, kind, 0);
    }
    for (kind, number) in PRINTED {
        show_in::<{ printer::LEAST_SCRATCH }>(&rt, kind, number);
    }
    show_in::<TOO_FEW>(&rt, 3, 5);
    show_in::<TOO_FEW>(&rt, 0, 0);
    all_lengths(&rt);
}
