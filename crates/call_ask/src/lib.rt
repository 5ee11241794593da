// The call ask.
#![tactic(auto)]

ghost use Rattle.std.specs.Prelude.{List, ℕ, ◌<◌};
ghost use Rattle.circuit.specs.Sheet.{size};
ghost use Rattle.circuit.specs.Machine as machine;
ghost use Rattle.circuit.specs.Call as machine_call;
ghost use Rattle.value.specs.Meaning.{meaning};
ghost use Rattle.layout.specs.Opened.{sheet_of};
ghost use Rattle.layout.specs.Room.{Room};
ghost use Rattle.table.specs.Bytes.{decode_table};
ghost use Rattle.office.specs.Office.{call_on, keeping};
ghost use Rattle.children.specs.Children.{Kept};
ghost use Rattle.admission.specs.Admission.{call_lent};
ghost use Rattle.stepping.specs.Stepping.{Ready, Prepared, begun};
ghost use Rattle.call_ask.specs.Asking.{Valued, TriedValue, ReadingOf, LookedUp};

use cause::{Cause, Fault};
use children::Children;
use item::Sheet;
use memo::Memo;
use value::Value;

// What an ask gives: an answer, and the kind and the number of the item's value, 0 and 0 where it is refused. Numbers, since C reads it. (The offset
// is cast, and the generation below: there is no From<usize> for u64.)
#[repr(C)]
#[derive(Clone, Copy, PartialEq, Eq, Debug)]
pub struct Reading {
    pub number: u64,
    pub offset: u64,
    pub kind: u64,
    pub value: i64,
}

impl From<Result<Value, Fault>> for Reading {
    ghost from_gives = { λ given reading. ReadingOf given reading };

    fn from(given: Result<Value, Fault>) -> Reading {
        match given {
            Ok(value) => Reading {
                number: 0,
                offset: 0,
                kind: u64::from(value.kind()),
                value: value.number_or_zero(),
            },
            Err(fault) => Reading {
                number: fault.cause.number(),
                offset: fault.offset as u64,
                kind: 0,
                value: 0,
            },
        }
    }
}

// Catches up, and looks item i up in the generation after those of the steps, which call_board begins so too (catching says why).
fn caught_up(
    sheet: &Sheet<'_>,
    table: &mut [u8],
    owed: &mut [u8],
    memo: &mut Memo<'_>,
    children: &mut Children<'_>,
    i: usize,
) -> Value
    requires prepared { Prepared sheet.now table.old owed.old (begun memo.old 1) children.old }
    requires within { i < size (sheet_of sheet.now) }
    ensures { LookedUp sheet.now (machine.look_up (sheet_of sheet.now) (machine.catch_up (sheet_of sheet.now) (decode_table table.old)) i) (meaning result) table.new }
{
    catching::catch_up(sheet, table, memo, children, owed);
    memo.begin((2 * sheet.len() + 1) as u64);
    looking::look_up(sheet, table, memo, i).value
}

fn ask_lent(
    sheet: &Sheet<'_>,
    table: &mut [u8],
    item: u64,
    owed: &mut [u8],
    memo: &mut Memo<'_>,
    children: &mut Children<'_>,
) -> Result<Value, Cause>
    requires prepared { Prepared sheet.now table.old owed.old (begun memo.old 1) children.old }
    ensures { (x : List ℕ) → Valued (call_lent (sheet_of sheet.now) x table.old (machine_call.ask item)) result table.new }
{
    let i = admission::in_sheet(sheet, item)?;
    let value = caught_up(sheet, table, owed, memo, children, i);
    owing::settle(sheet, table, owed);
    Ok(value)
}

// The call, with scratch arrays, in which nothing is remembered for the generations of its steps, and the lists of children are built
// already or empty: what they hold afterwards is left free.
pub fn ask(
    sheet: &[u8],
    index: &[u8],
    table: &mut [u8],
    item: u64,
    offsets: &mut [usize],
    bytes: &mut [u8],
    memo: &mut Memo<'_>,
    children: &mut Children<'_>,
) -> Result<Value, Fault>
    requires room { Room sheet.now offsets.old bytes.old }
    requires ready { Ready sheet.now (begun memo.old 1) }
    requires kept { Kept (sheet_of sheet.now) children.old }
    ensures { TriedValue (call_on sheet.now (keeping index.now table.old) (machine_call.ask item)) result table.new }
{
    let sheet = admission::admitted(sheet, index, table, offsets, bytes)?;
    // (By ? and then Ok: ? also makes a Fault of the call's Cause.)
    let value = ask_lent(&sheet, table, item, bytes, memo, children)?;
    Ok(value)
}
