// Text appended to the output bytes from a place on, as far as it fits. Each function gives the place after it. (Bytes and place go as two:
// in a struct that borrows the bytes, each contract would also have to say that it still holds the caller's bytes, since what is
// left in them is promised.)
#![tactic(auto)]

ghost use Rattle.std.specs.Prelude.{◌≤◌, length};
ghost use Rattle.decimal.specs.Decimal.{digits};
ghost use Rattle.printer.specs.Printing.{text_of};
ghost use Rattle.value.specs.Meaning.{parts_of};
ghost use Rattle.day_meaning.specs.Lines.{Appended, no_line, ask_line, last_line};

// The words of the lines, each with the space after it, and what else they have.
const ASK: [u8; 4] = *b"ASK ";

const NO: [u8; 3] = *b"NO ";

pub const SHEET: [u8; 6] = *b"SHEET ";

pub const DAY: [u8; 4] = *b"DAY ";

pub const OK_LINE: [u8; 3] = *b"OK\n";

const SPACE: [u8; 1] = *b" ";

const LINE_END: [u8; 1] = *b"\n";

// As many of the bytes as there is room for.
pub fn append(out: &mut [u8], at: usize, bytes: &[u8]) -> usize
    requires { at ≤ length out.old }
    ensures { Appended bytes.now out.old at result out.new }
{
    let n = bytes.len().min(out.len() - at);
    out[at..at + n].copy_from_slice(&bytes[..n]);
    at + n
}

// A number in decimal.
fn append_number(out: &mut [u8], at: usize, m: u64) -> usize
    requires { at ≤ length out.old }
    ensures { Appended (digits m) out.old at result out.new }
{
    let mut digits = [0u8; decimal::MOST_DIGITS];
    let count = decimal::put_digits(m, 0, &mut digits);
    append(out, at, &digits[..count])
}

// The printer's text of a value. (Here and in ask_line a kind and a number, and no Value: the clauses speak of pairs that are no value too.)
fn append_value(out: &mut [u8], at: usize, kind: u64, number: i64) -> usize
    requires { at ≤ length out.old }
    ensures { Appended (text_of (parts_of kind number)) out.old at result out.new }
{
    let mut scratch = [0u8; printer::LEAST_SCRATCH];
    let part = printer::print(kind, number, &mut scratch);
    append(out, at, part)
}

// `NO number`
pub fn no_line(out: &mut [u8], at: usize, number: u64) -> usize
    requires { at ≤ length out.old }
    ensures { Appended (no_line number) out.old at result out.new }
{
    let a = append(out, at, &NO);
    let b = append_number(out, a, number);
    append(out, b, &LINE_END)
}

// `ASK item value`
pub fn ask_line(out: &mut [u8], at: usize, item: u64, kind: u64, number: i64) -> usize
    requires { at ≤ length out.old }
    ensures { Appended (ask_line item (text_of (parts_of kind number))) out.old at result out.new }
{
    let a = append(out, at, &ASK);
    let b = append_number(out, a, item);
    let c = append(out, b, &SPACE);
    let d = append_value(out, c, kind, number);
    append(out, d, &LINE_END)
}

// `SHEET number offset` or `DAY number offset`, by the word.
pub fn last_line(out: &mut [u8], at: usize, word: &[u8], number: u64, offset: u64) -> usize
    requires { at ≤ length out.old }
    ensures { Appended (last_line word.now number offset) out.old at result out.new }
{
    let a = append(out, at, word);
    let b = append_number(out, a, number);
    let c = append(out, b, &SPACE);
    let d = append_number(out, c, offset);
    append(out, d, &LINE_END)
}
