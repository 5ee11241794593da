// The owed bytes of the work table. Which items are owed comes by one pass over the items and their parents, highest first, into a lent array
// with a byte for each item; the bytes of a table are tested by such an array, and written from one. What the array holds before counts
// for nothing, and what it holds afterwards is left free. (Bytes, 0 or 1, and no bools: they are the table's own.)
#![tactic(auto)]

ghost use Rattle.std.specs.Prelude.{◌≡◌, true, ℕ, ◌+◌, ◌*◌, ◌<◌, ◌≤◌, eqb, length, get_or, All};
ghost use Rattle.circuit.specs.Sheet.{size, parents_of};
ghost use Rattle.circuit.specs.Owed.{leaning};
ghost use Rattle.layout.specs.Opened.{sheet_of};
ghost use Rattle.table.specs.Rows.{row, all_below};
ghost use Rattle.table.specs.Record.{width, owed_in};
ghost use Rattle.table.specs.Bytes.{encode_table, decode_table, table_form, owed_true};
ghost use Rattle.owing.specs.Owing.{says_owed, OwedIs, owe_each, owe_rows};

use item::{Item, Sheet};
use table::{OWED_PLACE, WIDTH};

// Whether item c leans on its parents: it is stored, or the array says that it is owed.
fn leans(table: &[u8], owed: &[u8], c: usize) -> bool
    requires recorded { width * c + width ≤ length table.now }
    requires roomy { c < length owed.now }
    ensures { result ≡ leaning (decode_table table.now c) (says_owed owed.now c) }
{
    table::is_stored(table, c) || owed[c] != 0
}

// Each parent of an item is owed.
fn owe_parents(item: &Item<'_>, owed: &mut [u8])
    requires { All (λ p. p < length owed.old) (parents_of item.now) }
    ensures { owed.new ≡ owe_each owed.old (parents_of item.now) (length (parents_of item.now)) }
{
    for k in 0..item.parent_count() {
        owed[item.parent(k)] = 1;
    }
}

// Which items are owed, whatever the array has.
fn owe(sheet: &Sheet<'_>, table: &[u8], owed: &mut [u8])
    requires recorded { length table.now ≡ width * size (sheet_of sheet.now) }
    requires roomy { size (sheet_of sheet.now) ≤ length owed.old }
    ensures { OwedIs (sheet_of sheet.now) (decode_table table.now) owed.new }
{
    owed.fill(0);
    for c in (0..sheet.len()).rev() {
        if leans(table, owed, c) {
            owe_parents(&sheet.item(c), owed);
        }
    }
}

// The three walks over the records stay three, since no step is common to them: one tests, one stores, one copies.

// Whether the owed bytes of a table are those of the array.
fn owed_matches(table: &[u8], owed: &[u8]) -> bool
    requires { width * length owed.now ≤ length table.now }
    ensures { result ≡ all_below (λ i. eqb (owed_in (row width table.now i)) (get_or owed.now i 0)) (length owed.now) }
{
    (0..owed.len()).all(|i| table::owed_byte(table, i) == owed[i])
}

// Whether every owed byte of a table is the true one.
pub fn owed_true(sheet: &Sheet<'_>, table: &[u8], owed: &mut [u8]) -> bool
    requires recorded { length table.now ≡ width * size (sheet_of sheet.now) }
    requires roomy { size (sheet_of sheet.now) ≤ length owed.old }
    ensures { result ≡ owed_true (sheet_of sheet.now) table.now }
{
    let owed = &mut owed[..sheet.len()];
    owe(sheet, table, owed);
    owed_matches(table, owed)
}

// Writes the owed bytes of the array's items, and changes no other byte. Record by record at its place: std says nothing of what a slice
// holds after a loop over chunks_exact_mut.
fn write_owed(table: &mut [u8], owed: &[u8])
    requires { width * length owed.now ≤ length table.old }
    ensures { table.new ≡ owe_rows table.old owed.now (length owed.now) }
{
    for (i, byte) in owed.iter().enumerate() {
        table[i * WIDTH + OWED_PLACE] = *byte;
    }
}

// Settles a table whose cells were stored: its owed bytes become the true ones. Every owed byte is written here.
// (The clauses recorded and formed are the fact Lent, which the callers have. They stand one by one since Lent is a word of crate looking,
// which is above this one.)
pub fn settle(sheet: &Sheet<'_>, table: &mut [u8], owed: &mut [u8])
    requires recorded { length table.old ≡ width * size (sheet_of sheet.now) }
    requires roomy { size (sheet_of sheet.now) ≤ length owed.old }
    requires formed { table_form (sheet_of sheet.now) table.old ≡ true }
    ensures { table.new ≡ encode_table (sheet_of sheet.now) (decode_table table.old) }
{
    let owed = &mut owed[..sheet.len()];
    owe(sheet, table, owed);
    write_owed(table, owed);
}

// Copies the owed bytes of a table's records, for the tellings of a call. The array has a byte for each record.
pub fn copy_owed(table: &[u8], owed: &mut [u8])
    ensures { (i : ℕ) → i < length owed.new → width * i + width ≤ length table.now → get_or owed.new i 0 ≡ owed_in (row width table.now i) }
{
    let n = (table.len() / WIDTH).min(owed.len());
    // By number: std says nothing of what a slice holds after a loop over an adapter of iter_mut.
    for i in 0..n {
        owed[i] = table::owed_byte(table, i);
    }
}
