// The digits of a number, written into bytes at their places.
#![tactic(auto)]

ghost use Rattle.std.specs.Prelude.{◌≡◌, ◌+◌, ◌≤◌, length};
ghost use Rattle.decimal.specs.Decimal.{digits};
ghost use Rattle.decimal.specs.Contract.{WithDigits};

// The most digits of a number of 64 bits. What lends so many bytes is proved to have room.
pub const MOST_DIGITS: usize = 20;

// How many digits m has. (It counts divisions. std's ilog10 has a table, which the printer must not have; ilog(10) divides
// too, but tells of powers, and digits of quotients.)
fn digit_count(m: u64) -> usize
    ensures { result ≡ length (digits m) }
{
    let mut left = m;
    let mut count: usize = 1;
    while 10 <= left {
        left /= 10;
        count += 1;
    }
    count
}

// Writes the digits of m from the place `at` on, and gives the place after them. The last digit is written first, each at
// its final place, so that no other byte is touched. (By the places, and not by iter_mut().rev() of the part: what an adapter of iter_mut
// writes, no contract tells.)
// (The place goes beside the bytes: the contract says what all of them hold afterwards, also those before it. Not inlined: the printer
// calls it with a sign and without, and is to stay small.)
#[inline(never)]
pub fn put_digits(m: u64, at: usize, bytes: &mut [u8]) -> usize
    requires { at + length (digits m) ≤ length bytes.old }
    ensures { WithDigits m at bytes.old result bytes.new }
{
    let next = at + digit_count(m);
    let mut rest = m;
    for place in (at..next).rev() {
        bytes[place] = b'0' + (rest % 10) as u8;
        rest /= 10;
    }
    next
}
