// The work table in bytes, a record for each item: kind, mark, number and owed. The form of the first three, and reading and storing one cell.
// The functions take the bytes, and say that record i is in them: the bytes are lent by C, and what is left in them is promised byte for
// byte. A struct that borrows them would need in each contract that it still holds the same.
#![tactic(auto)]

ghost use Rattle.std.specs.Prelude.{◌≡◌, ◌+◌, ◌*◌, ◌≤◌, length};
ghost use Rattle.std.proofs.lemmas.List.Edits.{sets};
ghost use Rattle.circuit.specs.Table.{value_in, mark_of, is_stored, is_marked, is_notice};
ghost use Rattle.value.specs.Meaning.{meaning};
ghost use Rattle.table.specs.Rows.{row, set_row};
ghost use Rattle.table.specs.Record.{width, owed_in, record_of, mark_code, mark_coded, cell_coded, encode_cell, decode_cell, codes_form, number_form, record_form};
ghost use Rattle.table.specs.Bytes.{decode_table, LowestFound};
ghost use Rattle.table.specs.Meaning.{mark_meaning, cell_meaning};

use value::Value;

// How many bytes an item has.
pub const WIDTH: usize = 11;

// Where a record's parts stand.
const KIND_PLACE: usize = 0;

const MARK_PLACE: usize = 1;

const NUMBER_PLACE: usize = 2;

pub const OWED_PLACE: usize = 10;

#[derive(Clone, Copy, PartialEq, Eq, Debug)]
pub enum Mark {
    Unmarked,
    Refresh,
    Notice,
}

#[derive(Clone, Copy, PartialEq, Eq, Debug)]
pub enum Cell {
    // UNK: nothing stored; true if its mark is notice. The other two marks would be the same cell, so this is no Mark.
    Unk(bool),
    Held(Value, Mark),
}

// 0 none, 1 refresh, 2 notice: the codes by which a mark stands in the bytes.
impl From<Mark> for u8 {
    ghost from_gives = { λ m code. code ≡ mark_code (mark_meaning m) };

    fn from(m: Mark) -> u8 {
        match m {
            Mark::Unmarked => 0,
            Mark::Refresh => 1,
            Mark::Notice => 2,
        }
    }
}

// A code above 2 counts as 0.
impl From<u8> for Mark {
    ghost from_gives = { λ code m. mark_meaning m ≡ mark_coded code };

    fn from(code: u8) -> Mark {
        match code {
            1 => Mark::Refresh,
            2 => Mark::Notice,
            _ => Mark::Unmarked,
        }
    }
}

// Kind 0 is UNK.
fn cell_coded(kind: u8, mark: u8, number: i64) -> Cell
    ensures { cell_meaning result ≡ cell_coded kind mark number }
{
    let mark = Mark::from(mark);
    if kind == 0 {
        Cell::Unk(mark == Mark::Notice)
    } else {
        Cell::Held(Value::of_parts(kind, number), mark)
    }
}

// The record of item i.
fn record(table: &[u8], i: usize) -> &[u8]
    requires { width * i + width ≤ length table.now }
    ensures { result.now ≡ row width table.now i }
{
    &table[i * WIDTH..i * WIDTH + WIDTH]
}

// The cell of item i.
#[tactic(auto, unfolding(crate::specs::Record::decode_cell))]
pub fn read_cell(table: &[u8], i: usize) -> Cell
    requires { width * i + width ≤ length table.now }
    ensures { cell_meaning result ≡ decode_cell (row width table.now i) }
{
    let r = record(table, i);
    cell_coded(
        r[KIND_PLACE],
        r[MARK_PLACE],
        word::read_i64(r, NUMBER_PLACE),
    )
}

// The value of a stored cell, and NULL for UNK.
pub fn value_in(cell: Cell) -> Value
    ensures { meaning result ≡ value_in (cell_meaning cell) }
{
    match cell {
        Cell::Unk(_) => Value::NULL,
        Cell::Held(value, _) => value,
    }
}

// The value that item i holds, and NULL where nothing is stored.
// (Not inlined: within a loop LLVM would read a value's case out of a table of words, and the library is without constants.)
#[inline(never)]
pub fn value_at(table: &[u8], i: usize) -> Value
    requires { width * i + width ≤ length table.now }
    ensures { meaning result ≡ value_in (decode_cell (row width table.now i)) }
{
    value_in(read_cell(table, i))
}

// Whether item i is marked, by its kind and its mark.
#[tactic(auto, unfolding(crate::specs::Record::decode_cell))]
pub fn is_marked(table: &[u8], i: usize) -> bool
    requires { width * i + width ≤ length table.now }
    ensures { result ≡ is_marked (decode_cell (row width table.now i)) }
{
    let r = record(table, i);
    match Mark::from(r[MARK_PLACE]) {
        Mark::Unmarked => false,
        Mark::Refresh => r[KIND_PLACE] != 0,
        Mark::Notice => true,
    }
}

// Whether item i has a notice.
#[tactic(auto, unfolding(crate::specs::Record::decode_cell))]
pub fn is_noticed(table: &[u8], i: usize) -> bool
    requires { width * i + width ≤ length table.now }
    ensures { result ≡ is_notice (mark_of (decode_cell (row width table.now i))) }
{
    Mark::from(record(table, i)[MARK_PLACE]) == Mark::Notice
}

// Whether a value is stored for item i.
#[tactic(auto, unfolding(crate::specs::Record::decode_cell))]
pub fn is_stored(table: &[u8], i: usize) -> bool
    requires { width * i + width ≤ length table.now }
    ensures { result ≡ is_stored (decode_cell (row width table.now i)) }
{
    record(table, i)[KIND_PLACE] != 0
}

// The owed byte of item i.
pub fn owed_byte(table: &[u8], i: usize) -> u8
    requires { width * i + width ≤ length table.now }
    ensures { result ≡ owed_in (row width table.now i) }
{
    record(table, i)[OWED_PLACE]
}

// The lowest of the first n items that is marked.
// (n is the sheet's size, which the caller has; from the bytes it would take a division.)
pub fn lowest_marked(table: &[u8], n: usize) -> Option<usize>
    requires { width * n ≤ length table.now }
    ensures { LowestFound (decode_table table.now) n result }
{
    (0..n).find(|i| is_marked(table, *i))
}

fn store_record(record: &mut [u8], kind: u8, mark: Mark, number: i64)
    requires { length record.old ≡ width }
    ensures { record.new ≡ sets record.old 0 (record_of kind (mark_code (mark_meaning mark)) number) }
{
    record[KIND_PLACE] = kind;
    record[MARK_PLACE] = u8::from(mark);
    word::write_i64(record, NUMBER_PLACE, number);
}

// Stores the cell of item i, and changes no other byte. Every store of a cell is made here; owed bytes are written by crate owing.
pub fn store_cell(table: &mut [u8], i: usize, cell: Cell)
    requires { width * i + width ≤ length table.old }
    ensures { table.new ≡ set_row width table.old i (encode_cell (cell_meaning cell)) }
{
    let record = &mut table[i * WIDTH..i * WIDTH + WIDTH];
    match cell {
        Cell::Unk(true) => store_record(record, 0, Mark::Notice, 0),
        Cell::Unk(false) => store_record(record, 0, Mark::Unmarked, 0),
        Cell::Held(v, m) => store_record(record, v.kind(), m, v.number_or_zero()),
    }
}

// Whether a record may have this kind and this mark. By numbers, since the bytes tested may be no codes.
#[tactic(auto, unfolding(crate::specs::Record::codes_form))]
fn codes_formed(figure: bool, kind: u8, mark: u8) -> bool
    ensures { result ≡ codes_form figure kind mark }
{
    let allowed = if figure {
        kind != 0 || mark != 1
    } else {
        kind != 0 && kind != 2 && mark != 1
    };
    kind <= 3 && mark <= 2 && allowed
}

#[tactic(auto, unfolding(crate::specs::Record::number_form))]
fn number_formed(kind: u8, number: i64) -> bool
    ensures { result ≡ number_form kind number }
{
    if kind == 3 {
        value::in_range(number)
    } else {
        number == 0
    }
}

// Whether the record of item i is in form; figure says whether the item is a figure or an entry. It is a bool since the records know no items:
// Item::is_figure gives it, and the definition takes it.
#[tactic(auto, unfolding(crate::specs::Record::record_form))]
pub fn record_formed(table: &[u8], i: usize, figure: bool) -> bool
    requires { width * i + width ≤ length table.now }
    ensures { result ≡ record_form figure (row width table.now i) }
{
    let r = record(table, i);
    codes_formed(figure, r[KIND_PLACE], r[MARK_PLACE])
        && number_formed(r[KIND_PLACE], word::read_i64(r, NUMBER_PLACE))
}
