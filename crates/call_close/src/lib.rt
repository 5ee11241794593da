// The call close, which is the season-close run: one pass over the items, lowest first, in the lent table. A figure is worked out
// from its parents' records, which the pass has already written: nothing is looked up, remembered or told.
#![tactic(auto)]

ghost use Rattle.std.specs.Prelude.{◌≡◌, true, ◌<◌, ◌≤◌, length};
ghost use Rattle.circuit.specs.Sheet.{size, item_at, is_figure};
ghost use Rattle.circuit.specs.Closing as machine;
ghost use Rattle.circuit.specs.Call as machine_call;
ghost use Rattle.value.specs.Meaning.{meaning};
ghost use Rattle.layout.specs.Opened.{sheet_of};
ghost use Rattle.layout.specs.Room.{Room};
ghost use Rattle.table.specs.Bytes.{decode_table, encode_table};
ghost use Rattle.office.specs.Office.{call_on, keeping};
ghost use Rattle.admission.specs.Answers.{Tried, Left};
ghost use Rattle.looking.specs.Pass.{Lent};

use cause::Fault;
use item::Sheet;
use table::{Cell, Mark};
use value::{MAX_PARENTS, Value};

// Works figure i out from the records of its parents, in their listed order. Unlike looking's work_out, it has no memo and looks no
// parent up. The values stand in an array for the most parents, since there is no heap.
fn work_out(sheet: &Sheet<'_>, table: &[u8], i: usize) -> Value
    requires lent { Lent sheet.now table.now }
    requires within { i < size (sheet_of sheet.now) }
    requires figure { is_figure (item_at (sheet_of sheet.now) i) ≡ true }
    ensures { meaning result ≡ machine.closed_value (sheet_of sheet.now) (decode_table table.now) i }
{
    let item = sheet.item(i);
    let count = item.parent_count();
    let mut values = [Value::NULL; MAX_PARENTS];
    for k in 0..count {
        values[k] = table::value_at(table, item.parent(k));
    }
    item.evaluate(&values[..count])
}

// What item i is to hold: an entry what it held, a figure what is worked out.
fn closed_value(sheet: &Sheet<'_>, table: &[u8], i: usize) -> Value
    requires lent { Lent sheet.now table.now }
    requires within { i < size (sheet_of sheet.now) }
    ensures { meaning result ≡ machine.closed_value (sheet_of sheet.now) (decode_table table.now) i }
{
    if sheet.item(i).is_figure() {
        work_out(sheet, table, i)
    } else {
        table::value_at(table, i)
    }
}

// Stores what item i is to hold, without a mark.
fn close_item(sheet: &Sheet<'_>, table: &mut [u8], i: usize)
    requires lent { Lent sheet.now table.old }
    requires within { i < size (sheet_of sheet.now) }
    ensures { Left sheet.now (machine.close_item (sheet_of sheet.now) (decode_table table.old) i) table.new }
{
    let value = closed_value(sheet, table, i);
    table::store_cell(table, i, Cell::Held(value, Mark::Unmarked));
}

// The run on what was admitted: it has no tests of its own.
fn close_lent(sheet: &Sheet<'_>, table: &mut [u8], bytes: &mut [u8])
    requires lent { Lent sheet.now table.old }
    requires owed_room { size (sheet_of sheet.now) ≤ length bytes.old }
    ensures { table.new ≡ encode_table (sheet_of sheet.now) (machine.close_all (sheet_of sheet.now) (decode_table table.old)) }
{
    for i in 0..sheet.len() {
        close_item(sheet, table, i);
    }
    owing::settle(sheet, table, bytes);
}

// The call, with scratch arrays: what they hold before counts for nothing, and what they hold afterwards is left free.
pub fn close(
    sheet: &[u8],
    index: &[u8],
    table: &mut [u8],
    offsets: &mut [usize],
    bytes: &mut [u8],
) -> Result<(), Fault>
    requires room { Room sheet.now offsets.old bytes.old }
    ensures { Tried (call_on sheet.now (keeping index.now table.old) machine_call.close) result table.new }
{
    let sheet = admission::admitted(sheet, index, table, offsets, bytes)?;
    close_lent(&sheet, table, bytes);
    Ok(())
}
