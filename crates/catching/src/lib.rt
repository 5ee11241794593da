// Catching up: the lowest marked item is stepped until none is marked.
#![tactic(auto)]

ghost use Rattle.std.specs.Prelude.{◌*◌};
ghost use Rattle.circuit.specs.Sheet.{size};
ghost use Rattle.circuit.specs.Machine as machine;
ghost use Rattle.layout.specs.Opened.{sheet_of};
ghost use Rattle.table.specs.Bytes.{decode_table};
ghost use Rattle.stepping.specs.Stepping.{Prepared, Steps, begun};

use children::Children;
use item::Sheet;
use memo::Memo;

// Steps until no item is marked, from the lowest on. Telling goes by the owed bytes that the table has at the start, which stay true.
// What is in the memo, the child lists and the array afterwards is left free, but for the generations of the memo: each step begins one.
// Ask and board begin the one in which they look up themselves, with one line each: at the end here it would come after a branch, and
// so want a second function that is lent the same. (Child lists and owed bytes go as two: the lists are built by need, and settling takes the bytes alone.)
pub fn catch_up(
    sheet: &Sheet<'_>,
    table: &mut [u8],
    memo: &mut Memo<'_>,
    children: &mut Children<'_>,
    owed: &mut [u8],
)
    requires prepared { Prepared sheet.now table.old owed.old (begun memo.old 1) children.old }
    ensures { Steps sheet.now table.old (2 * size (sheet_of sheet.now)) (machine.catch_up (sheet_of sheet.now) (decode_table table.old)) table.new memo.new }
{
    if let Some(first) = table::lowest_marked(table, sheet.len()) {
        owing::copy_owed(table, owed);
        stepping::catch_up(sheet, table, memo, children, owed, first);
    }
}
