// The call step.
#![tactic(auto)]

ghost use Rattle.std.specs.Prelude.{◌≡◌, List, [], ◌∷◌, ℕ, ◌*◌, ◌<◌, length};
ghost use Rattle.cause.specs.Cause.{number_in};
ghost use Rattle.circuit.specs.Sheet.{size};
ghost use Rattle.circuit.specs.Machine as machine;
ghost use Rattle.circuit.specs.Call as machine_call;
ghost use Rattle.circuit.specs.Calls.{first_cause, test, no_item, no_mark};
ghost use Rattle.layout.specs.Opened.{sheet_of};
ghost use Rattle.layout.specs.Room.{Room};
ghost use Rattle.table.specs.Record.{width};
ghost use Rattle.table.specs.Bytes.{decode_table, OwedKept};
ghost use Rattle.office.specs.Office.{call_on, keeping};
ghost use Rattle.children.specs.Children.{Kept};
ghost use Rattle.admission.specs.Answers.{Did, Tried, Left};
ghost use Rattle.admission.specs.Admission.{ItemOf, call_lent};
ghost use Rattle.stepping.specs.Stepping.{Ready, Prepared};

use cause::{Cause, Fault};
use children::Children;
use item::Sheet;
use memo::Memo;

// The item that is stepped: 11 where there is no such item, 14 where it has no mark.
fn marked(sheet: &Sheet<'_>, table: &[u8], item: u64) -> Result<usize, Cause>
    requires { length table.now ≡ width * size (sheet_of sheet.now) }
    ensures number { number_in result ≡ first_cause (test 11 (no_item (sheet_of sheet.now) item) ∷ test 14 (no_mark (decode_table table.now) item) ∷ []) }
    ensures found { ItemOf sheet.now item result }
{
    let i = admission::in_sheet(sheet, item)?;
    // (By if and else: with then_some the case that is refused would stand nowhere in the text.)
    if table::is_marked(table, i) {
        Ok(i)
    } else {
        Err(Cause::NoMark)
    }
}

// One step. That of a notice tells the children by their list, which is built where the item is owed. The choice is that of
// stepping's `step_item`, which is lent the owed bytes and the list; here a refresh copies no owed byte and builds no list.
fn step_once(
    sheet: &Sheet<'_>,
    table: &mut [u8],
    owed: &mut [u8],
    memo: &mut Memo<'_>,
    children: &mut Children<'_>,
    i: usize,
)
    requires prepared { Prepared sheet.now table.old owed.old memo.old children.old }
    requires within { i < size (sheet_of sheet.now) }
    ensures left { Left sheet.now (machine.step_item (sheet_of sheet.now) (decode_table table.old) i) table.new }
    ensures owed_kept { OwedKept table.old table.new }
{
    if table::is_noticed(table, i) {
        owing::copy_owed(table, owed);
        children.link_once(sheet, owed[i] != 0);
        stepping::tell_and_clear(sheet, table, memo, children, owed, i);
    } else {
        stepping::step_refresh(sheet, table, memo, i);
    }
}

// A step leaves the owed bytes, which stay true: nothing becomes owed by it or stops being owed.
fn step_lent(
    sheet: &Sheet<'_>,
    table: &mut [u8],
    item: u64,
    owed: &mut [u8],
    memo: &mut Memo<'_>,
    children: &mut Children<'_>,
) -> Result<(), Cause>
    requires prepared { Prepared sheet.now table.old owed.old memo.old children.old }
    ensures { (x : List ℕ) → Did (call_lent (sheet_of sheet.now) x table.old (machine_call.step item)) result table.new }
{
    let i = marked(sheet, table, item)?;
    step_once(sheet, table, owed, memo, children, i);
    Ok(())
}

// The call, with scratch arrays, in which nothing is remembered for the generations of its steps, and the lists of children are built
// already or empty: what they hold afterwards is left free.
pub fn step(
    sheet: &[u8],
    index: &[u8],
    table: &mut [u8],
    item: u64,
    offsets: &mut [usize],
    bytes: &mut [u8],
    memo: &mut Memo<'_>,
    children: &mut Children<'_>,
) -> Result<(), Fault>
    requires room { Room sheet.now offsets.old bytes.old }
    requires ready { Ready sheet.now memo.old }
    requires kept { Kept (sheet_of sheet.now) children.old }
    ensures { Tried (call_on sheet.now (keeping index.now table.old) (machine_call.step item)) result table.new }
{
    let sheet = admission::admitted(sheet, index, table, offsets, bytes)?;
    // (By ? and then Ok: ? also makes a Fault of the call's Cause.)
    step_lent(&sheet, table, item, bytes, memo, children)?;
    Ok(())
}
