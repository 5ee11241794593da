// The openings: a sheet is tested, and its index and table are written.
#![tactic(auto)]

ghost use Rattle.std.specs.Prelude.{◌≡◌, ◌*◌, ◌≤◌, length};
ghost use Rattle.circuit.specs.Sheet.{size};
ghost use Rattle.circuit.specs.Table.{opened};
ghost use Rattle.layout.specs.Opened.{sheet_of};
ghost use Rattle.layout.specs.Room.{Room};
ghost use Rattle.item.specs.Item.{kind_meaning};
ghost use Rattle.table.specs.Record.{width};
ghost use Rattle.table.specs.Bytes.{encode_table};
ghost use Rattle.table.specs.Meaning.{cell_meaning};
ghost use Rattle.office.specs.Office.{open_on, keeping};
ghost use Rattle.call_open.specs.Opening.{Opens, opening_by, first_cell};

use cause::Fault;
use item::{Kind, Sheet};
use table::{Cell, Mark};
use value::Value;

// With every figure UNK, or with every one NULL.
#[derive(Clone, Copy, PartialEq, Eq, Debug)]
pub enum Opening {
    Bare,
    Full,
}

// The cell of an item in an opened table.
fn first_cell(opening: Opening, kind: Kind) -> Cell
    ensures { cell_meaning result ≡ first_cell (opening_by opening) (kind_meaning kind) }
{
    match (opening, kind) {
        (Opening::Bare, Kind::Figure) => Cell::Unk(false),
        _ => Cell::Held(Value::NULL, Mark::Unmarked),
    }
}

// The table of an opening.
fn write_table(sheet: &Sheet<'_>, table: &mut [u8], opening: Opening, bytes: &mut [u8])
    requires table_length { length table.old ≡ width * size (sheet_of sheet.now) }
    requires owed_room { size (sheet_of sheet.now) ≤ length bytes.old }
    ensures { table.new ≡ encode_table (sheet_of sheet.now) (opened (opening_by opening) (sheet_of sheet.now)) }
{
    for k in 0..sheet.len() {
        let cell = first_cell(opening, sheet.item(k).kind());
        table::store_cell(table, k, cell);
    }
    owing::settle(sheet, table, bytes);
}

// An opening. The arrays are scratch: what they hold before counts for nothing, and what they hold afterwards is left free.
pub fn open_by(
    sheet: &[u8],
    index: &mut [u8],
    table: &mut [u8],
    opening: Opening,
    offsets: &mut [usize],
    bytes: &mut [u8],
) -> Result<(), Fault>
    requires room { Room sheet.now offsets.old bytes.old }
    ensures { Opens (open_on (opening_by opening) sheet.now (keeping index.old table.old)) result index.new table.new }
{
    let n = admission::measure(sheet, index.len(), table.len(), offsets, bytes)?;
    let offsets = &offsets[..n];
    item::write_index(offsets, index);
    write_table(&Sheet::new(sheet, offsets), table, opening, bytes);
    Ok(())
}
