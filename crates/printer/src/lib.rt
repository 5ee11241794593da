// Printing a value at the front of lent scratch bytes.
#![tactic(auto)]

ghost use Rattle.std.specs.Prelude.{◌≡◌, ◌≤◌, length};
ghost use Rattle.value.specs.Meaning.{meaning};
ghost use Rattle.decimal.specs.Decimal.{decimal};
ghost use Rattle.printer.specs.Printing.{printed, least_scratch, part_of};
ghost use Rattle.printer.specs.Contract.{Front, Prints, PrintsCode};

use cause::Cause;
use value::{Amount, Value};

// The fewest bytes of scratch that the printer takes.
pub const LEAST_SCRATCH: usize = 20;

// Writes a number at the front: at most a sign and 19 digits.
fn put_number(z: i64, scratch: &mut [u8]) -> usize
    requires { least_scratch ≤ length scratch.old }
    ensures { Front (decimal z) scratch.old result scratch.new }
{
    let m = z.unsigned_abs();
    if z < 0 {
        scratch[0] = b'-';
        return decimal::put_digits(m, 1, scratch);
    }
    decimal::put_digits(m, 0, scratch)
}

// Writes fixed bytes at the front.
// (By a loop: with copy_from_slice the bytes of the marks would stand in the archive as constants, and it has none: tests/archive.)
fn put_mark(mark: &[u8], scratch: &mut [u8]) -> usize
    requires { length mark.now ≤ length scratch.old }
    ensures { Front mark.now scratch.old result scratch.new }
{
    for (k, byte) in mark.iter().enumerate() {
        scratch[k] = *byte;
    }
    mark.len()
}

// Writes a value.
fn put_value(v: Value, scratch: &mut [u8]) -> usize
    requires { least_scratch ≤ length scratch.old }
    ensures { Front (printed (meaning v)) scratch.old result scratch.new }
{
    match v.amount {
        Amount::Null => put_mark(b"-", scratch),
        Amount::Out => put_mark(b"OUT", scratch),
        Amount::Number(n) => put_number(n, scratch),
    }
}

// Writes a value at the front of the scratch bytes, and gives the length of the written part; the bytes after it stay. Turned
// back, it writes nothing.
// (A kind and a number, and no Value: it is the printer's form in C, and a pair that is no value is turned back here. Who has a Value takes it apart.)
pub fn print_into(kind: u64, number: i64, scratch: &mut [u8]) -> Result<usize, Cause>
    ensures { Prints kind number scratch.old result scratch.new }
{
    let v = Value::from_parts(kind, number).ok_or(Cause::Form)?;
    if scratch.len() < LEAST_SCRATCH {
        return Err(Cause::Scratch);
    }
    Ok(put_value(v, scratch))
}

// The printer: writes a value at the front of the scratch bytes, and hands back the written part. Turned back, the part
// is empty. (The scratch is spent: print_into says what becomes of the bytes after the part.)
pub fn print(kind: u64, number: i64, scratch: &mut [u8]) -> &mut [u8]
    ensures { result.now ≡ part_of kind number (length scratch.old) }
{
    let n = print_into(kind, number, scratch).unwrap_or(0);
    &mut scratch[..n]
}

// print_into with its answer in one number, the C form of it: the part's length, or the number of what turned it back, negated. (Both are small:
// the casts lose nothing.)
pub fn print_code(kind: u64, number: i64, scratch: &mut [u8]) -> i64
    ensures { PrintsCode kind number scratch.old result scratch.new }
{
    match print_into(kind, number, scratch) {
        Ok(n) => n as i64,
        Err(cause) => -(cause.number() as i64),
    }
}
