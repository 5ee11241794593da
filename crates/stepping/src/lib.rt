// Stepping an item, and stepping every marked item in one ascending pass, which is catching up. Telling goes by an array of what is owed.
#![tactic(auto)]

ghost use Rattle.std.specs.Prelude.{◌≡◌, true, false, ◌+◌, ◌*◌, ◌<◌, ◌≤◌, length};
ghost use Rattle.circuit.specs.Sheet.{size};
ghost use Rattle.circuit.specs.Machine.{clear_cell, clear_mark, step_item, catch_up};
ghost use Rattle.circuit.specs.Ascending.{tell_by, step_by, step_marked_by};
ghost use Rattle.circuit.specs.Table.{mark_of, is_marked, is_notice};
ghost use Rattle.layout.specs.Opened.{sheet_of};
ghost use Rattle.table.specs.Bytes.{decode_table, LowestMarked};
ghost use Rattle.table.specs.Rows.{set_row};
ghost use Rattle.table.specs.Record.{width, encode_cell};
ghost use Rattle.owing.specs.Owing.{says_owed, OwedIs};
ghost use Rattle.children.specs.Children.{Kept};
ghost use Rattle.looking.specs.Pass.{Lent};
ghost use Rattle.telling.specs.Telling.{Telling};
ghost use Rattle.stepping.specs.Stepping.{Ready, Steps, begun, step_twice_by};

use children::Children;
use item::Sheet;
use memo::Memo;
use table::{Cell, Mark};

fn clear_mark(table: &mut [u8], i: usize)
    requires { width * i + width ≤ length table.old }
    ensures { table.new ≡ set_row width table.old i (encode_cell (clear_cell (decode_table table.old i))) }
{
    match table::read_cell(table, i) {
        Cell::Unk(_) => table::store_cell(table, i, Cell::Unk(false)),
        Cell::Held(value, _) => table::store_cell(table, i, Cell::Held(value, Mark::Unmarked)),
    }
}

// The step of a notice: the children are told, and then the mark is cleared.
pub fn tell_and_clear(
    sheet: &Sheet<'_>,
    table: &mut [u8],
    memo: &mut Memo<'_>,
    children: &Children<'_>,
    owed: &[u8],
    i: usize,
)
    requires lent { Lent sheet.now table.old }
    requires ready { Ready sheet.now memo.old }
    requires telling { Telling (sheet_of sheet.now) children.now owed.now i }
    ensures { Steps sheet.now table.old memo.old.generation (clear_mark (tell_by (says_owed owed.now) (sheet_of sheet.now) (decode_table table.old) i) i) table.new memo.new }
{
    telling::tell_children(sheet, table, memo, children, owed, i);
    clear_mark(table, i);
}

// Steps item i, which has no notice: a refresh works it out anew.
pub fn step_refresh(sheet: &Sheet<'_>, table: &mut [u8], memo: &mut Memo<'_>, i: usize)
    requires lent { Lent sheet.now table.old }
    requires ready { Ready sheet.now memo.old }
    requires within { i < size (sheet_of sheet.now) }
    requires unnoticed { is_notice (mark_of (decode_table table.old i)) ≡ false }
    ensures { Steps sheet.now table.old memo.old.generation (step_item (sheet_of sheet.now) (decode_table table.old) i) table.new memo.new }
{
    // Two tests: where one pattern with Mark::Refresh in it does not match, a proof learns nothing of the cell, and did not close.
    if let Cell::Held(value, mark) = table::read_cell(table, i) {
        if mark == Mark::Refresh {
            telling::renew(sheet, table, memo, i, value, Mark::Unmarked);
        }
    }
}

// Steps item i by its mark; without one nothing is done. The call step has the same two branches, but copies the owed bytes and links
// the lists in the first: a refresh copies and links nothing.
fn step_item(
    sheet: &Sheet<'_>,
    table: &mut [u8],
    memo: &mut Memo<'_>,
    children: &Children<'_>,
    owed: &[u8],
    i: usize,
)
    requires lent { Lent sheet.now table.old }
    requires ready { Ready sheet.now memo.old }
    requires telling { Telling (sheet_of sheet.now) children.now owed.now i }
    ensures { Steps sheet.now table.old memo.old.generation (step_by (says_owed owed.now) (sheet_of sheet.now) (decode_table table.old) i) table.new memo.new }
{
    if table::is_noticed(table, i) {
        tell_and_clear(sheet, table, memo, children, owed, i);
    } else {
        step_refresh(sheet, table, memo, i);
    }
}

// Steps item i if it is marked.
fn step_marked(
    sheet: &Sheet<'_>,
    table: &mut [u8],
    memo: &mut Memo<'_>,
    children: &Children<'_>,
    owed: &[u8],
    i: usize,
)
    requires lent { Lent sheet.now table.old }
    requires ready { Ready sheet.now memo.old }
    requires telling { Telling (sheet_of sheet.now) children.now owed.now i }
    ensures { Steps sheet.now table.old memo.old.generation (step_marked_by (says_owed owed.now) (sheet_of sheet.now) (decode_table table.old) i) table.new memo.new }
{
    if table::is_marked(table, i) {
        step_item(sheet, table, memo, children, owed, i);
    }
}

// Steps item i, which is marked, while it is: twice at most. The second step is of the next generation.
fn step_twice(
    sheet: &Sheet<'_>,
    table: &mut [u8],
    memo: &mut Memo<'_>,
    children: &Children<'_>,
    owed: &[u8],
    i: usize,
)
    requires lent { Lent sheet.now table.old }
    requires ready { Ready sheet.now (begun memo.old (2 * i + 1)) }
    requires telling { Telling (sheet_of sheet.now) children.now owed.now i }
    requires marked { is_marked (decode_table table.old i) ≡ true }
    ensures { Steps sheet.now table.old (2 * i + 2) (step_twice_by (says_owed owed.now) (sheet_of sheet.now) (decode_table table.old) i) table.new memo.new }
{
    // A cast: there is no From<usize> for u64.
    let generation = (2 * i + 1) as u64;
    memo.begin(generation);
    step_item(sheet, table, memo, children, owed, i);
    memo.begin(generation + 1);
    step_marked(sheet, table, memo, children, owed, i);
}

// Steps item i while it is marked, with the child lists, which are built first where it is owed.
fn advance(
    sheet: &Sheet<'_>,
    table: &mut [u8],
    memo: &mut Memo<'_>,
    children: &mut Children<'_>,
    owed: &[u8],
    i: usize,
)
    requires lent { Lent sheet.now table.old }
    requires ready { Ready sheet.now (begun memo.old (2 * i + 1)) }
    requires kept { Kept (sheet_of sheet.now) children.old }
    requires room { size (sheet_of sheet.now) ≤ length owed.now }
    requires within { i < size (sheet_of sheet.now) }
    ensures stepped { Steps sheet.now table.old (2 * i + 2) (step_twice_by (says_owed owed.now) (sheet_of sheet.now) (decode_table table.old) i) table.new memo.new }
    ensures kept { Kept (sheet_of sheet.now) children.new }
{
    if table::is_marked(table, i) {
        children.link_once(sheet, owed[i] != 0);
        step_twice(sheet, table, memo, children, owed, i);
    }
}

// Catches up: one ascending pass, in which each item is stepped while it is marked. No item below `first` is marked. A step is
// a generation of the memo, from 1 on. The array says what is owed at the start: while catching up nothing becomes owed or stops being owed.
// The child lists are built at the first marked item that is owed.
pub fn catch_up(
    sheet: &Sheet<'_>,
    table: &mut [u8],
    memo: &mut Memo<'_>,
    children: &mut Children<'_>,
    owed: &[u8],
    first: usize,
)
    requires lent { Lent sheet.now table.old }
    requires ready { Ready sheet.now (begun memo.old (2 * first + 1)) }
    requires kept { Kept (sheet_of sheet.now) children.old }
    requires owed { OwedIs (sheet_of sheet.now) (decode_table table.old) owed.now }
    requires lowest { LowestMarked (decode_table table.old) (size (sheet_of sheet.now)) first }
    ensures { Steps sheet.now table.old (2 * size (sheet_of sheet.now)) (catch_up (sheet_of sheet.now) (decode_table table.old)) table.new memo.new }
{
    for i in first..sheet.len() {
        advance(sheet, table, memo, children, owed, i);
    }
}
