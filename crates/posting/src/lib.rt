// The storing of a posting in an entry, which the calls that post have in common.
#![tactic(auto)]

ghost use Rattle.std.specs.Prelude.{◌≡◌, ◌+◌, ◌*◌, ◌≤◌, length};
ghost use Rattle.circuit.specs.Machine as machine;
ghost use Rattle.value.specs.Meaning.{meaning};
ghost use Rattle.table.specs.Rows.{row, set_row};
ghost use Rattle.table.specs.Record.{width, encode_cell, decode_cell};
ghost use Rattle.table.specs.Meaning.{cell_meaning};

use table::{Cell, Mark};
use value::Value;

// The cell after a posting: an equal value changes nothing.
fn posted_cell(cell: Cell, value: Value) -> Cell
    ensures { cell_meaning result ≡ machine.post_cell (cell_meaning cell) (meaning value) }
{
    match cell {
        Cell::Held(old, _) if old.same(value) => cell,
        _ => Cell::Held(value, Mark::Notice),
    }
}

// Stores the posting of a value in the record of item i, and changes no other byte.
pub fn store_posting(table: &mut [u8], i: usize, value: Value)
    requires record_there { width * i + width ≤ length table.old }
    ensures { table.new ≡ set_row width table.old i (encode_cell (machine.post_cell (decode_cell (row width table.old i)) (meaning value))) }
{
    let cell = posted_cell(table::read_cell(table, i), value);
    table::store_cell(table, i, cell);
}
