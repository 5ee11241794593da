// The calls keep and drop.
#![tactic(auto)]

ghost use Rattle.std.specs.Prelude.{◌≡◌, true, List, ℕ, ◌<◌, ◌≤◌, length};
ghost use Rattle.circuit.specs.Sheet.{size, item_at, is_figure};
ghost use Rattle.circuit.specs.Machine as machine;
ghost use Rattle.circuit.specs.Call as machine_call;
ghost use Rattle.layout.specs.Opened.{sheet_of};
ghost use Rattle.layout.specs.Room.{Room};
ghost use Rattle.table.specs.Bytes.{decode_table};
ghost use Rattle.table.specs.Meaning.{cell_meaning};
ghost use Rattle.office.specs.Office.{call_on, keeping};
ghost use Rattle.admission.specs.Answers.{Did, Tried, Left};
ghost use Rattle.admission.specs.Admission.{call_lent};
ghost use Rattle.looking.specs.Pass.{Lent};
ghost use Rattle.stepping.specs.Stepping.{Ready};

use cause::{Cause, Fault};
use item::{Kind, Sheet};
use memo::Memo;
use table::{Cell, Mark};

// The cell after a drop: a refresh becomes a notice.
fn dropped_cell(cell: Cell) -> Cell
    ensures { cell_meaning result ≡ machine.drop_cell (cell_meaning cell) }
{
    match cell {
        Cell::Unk(_) => cell,
        Cell::Held(_, mark) => Cell::Unk(mark != Mark::Unmarked),
    }
}

// Drop on what was admitted.
fn drop_lent(sheet: &Sheet<'_>, table: &mut [u8], item: u64, bytes: &mut [u8]) -> Result<(), Cause>
    requires lent { Lent sheet.now table.old }
    requires owed_room { size (sheet_of sheet.now) ≤ length bytes.old }
    ensures { (x : List ℕ) → Did (call_lent (sheet_of sheet.now) x table.old (machine_call.drop item)) result table.new }
{
    let i = admission::find(sheet, item, Kind::Figure)?;
    let cell = dropped_cell(table::read_cell(table, i));
    table::store_cell(table, i, cell);
    owing::settle(sheet, table, bytes);
    Ok(())
}

// Drop, with scratch arrays: what they hold before counts for nothing, and what they hold afterwards is left free.
pub fn drop_figure(
    sheet: &[u8],
    index: &[u8],
    table: &mut [u8],
    item: u64,
    offsets: &mut [usize],
    bytes: &mut [u8],
) -> Result<(), Fault>
    requires room { Room sheet.now offsets.old bytes.old }
    ensures { Tried (call_on sheet.now (keeping index.now table.old) (machine_call.drop item)) result table.new }
{
    let sheet = admission::admitted(sheet, index, table, offsets, bytes)?;
    // (By ? and then Ok: ? also makes a Fault of the call's Cause.)
    drop_lent(&sheet, table, item, bytes)?;
    Ok(())
}

// A figure that is not stored is looked up and stored, whatever its keep byte.
fn keep_cell(sheet: &Sheet<'_>, table: &mut [u8], memo: &mut Memo<'_>, i: usize)
    requires lent { Lent sheet.now table.old }
    requires ready { Ready sheet.now memo.old }
    requires within { i < size (sheet_of sheet.now) }
    requires figure { is_figure (item_at (sheet_of sheet.now) i) ≡ true }
    ensures { Left sheet.now (machine.keep_figure (sheet_of sheet.now) (decode_table table.old) i) table.new }
{
    if let Cell::Unk(_) = table::read_cell(table, i) {
        let seen = looking::look_unstored(sheet, table, memo, i);
        let mark = looking::notice_if(seen.flag);
        table::store_cell(table, i, Cell::Held(seen.value, mark));
    }
}

// Keep on what was admitted.
fn keep_lent(
    sheet: &Sheet<'_>,
    table: &mut [u8],
    item: u64,
    bytes: &mut [u8],
    memo: &mut Memo<'_>,
) -> Result<(), Cause>
    requires lent { Lent sheet.now table.old }
    requires owed_room { size (sheet_of sheet.now) ≤ length bytes.old }
    requires ready { Ready sheet.now memo.old }
    ensures { (x : List ℕ) → Did (call_lent (sheet_of sheet.now) x table.old (machine_call.keep item)) result table.new }
{
    let i = admission::find(sheet, item, Kind::Figure)?;
    keep_cell(sheet, table, memo, i);
    owing::settle(sheet, table, bytes);
    Ok(())
}

// Keep, with scratch arrays, and a memo in which nothing is remembered yet: what they hold afterwards is left free.
pub fn keep(
    sheet: &[u8],
    index: &[u8],
    table: &mut [u8],
    item: u64,
    offsets: &mut [usize],
    bytes: &mut [u8],
    memo: &mut Memo<'_>,
) -> Result<(), Fault>
    requires room { Room sheet.now offsets.old bytes.old }
    requires ready { Ready sheet.now memo.old }
    ensures { Tried (call_on sheet.now (keeping index.now table.old) (machine_call.keep item)) result table.new }
{
    let sheet = admission::admitted(sheet, index, table, offsets, bytes)?;
    // (By ? and then Ok: ? also makes a Fault of the call's Cause.)
    keep_lent(&sheet, table, item, bytes, memo)?;
    Ok(())
}
