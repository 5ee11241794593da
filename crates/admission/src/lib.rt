// What every call does first and last: the tests of what is lent (1 to 10) and of the item (11 and 12), and the answer.
#![tactic(auto)]

ghost use Rattle.std.specs.Prelude.{◌≡◌, ◌*◌, ◌≤◌, length, ◌&&◌, [], ◌∷◌, IfOk};
ghost use Rattle.cause.specs.Cause.{number_in};
ghost use Rattle.circuit.specs.Calls.{first_cause, test, no_item};
ghost use Rattle.circuit.specs.Sheet.{size, item_at, is_figure};
ghost use Rattle.layout.specs.Opened.{sheet_of};
ghost use Rattle.layout.specs.Room.{Room};
ghost use Rattle.item.specs.Item.{kind_meaning};
ghost use Rattle.table.specs.Record.{width};
ghost use Rattle.table.specs.Bytes.{table_form, owed_true};
ghost use Rattle.admission.specs.Admission.{measured_of, admitted_of, admitted_meaning, Admits, ItemOf, Scanned, Found};
ghost use Rattle.admission.specs.Answers.{wrong_item};

use cause::{Cause, Fault};
use item::{Kind, Sheet};

// What a call gives: 0, or the number of the cause for which it is refused, and the offset of a sheet's fault. In numbers, since C
// reads them.
#[repr(C)]
#[derive(Clone, Copy, PartialEq, Eq, Debug)]
pub struct Answer {
    pub number: u64,
    pub offset: u64,
}

// (call_ask's Reading has number and offset by the same lines: it is C's struct of four, and holds no Answer. Offsets and sizes are cast:
// there is no From<usize> for u64.)
impl From<Result<(), Fault>> for Answer {
    ghost use Rattle.std.specs.Prelude.{◌≡◌};
    ghost use Rattle.admission.specs.Answers.{answer_of};

    ghost from_gives = { λ given a. a ≡ answer_of given };

    fn from(given: Result<(), Fault>) -> Answer {
        match given {
            Ok(()) => Answer {
                number: 0,
                offset: 0,
            },
            Err(fault) => Answer {
                number: fault.cause.number(),
                offset: fault.offset as u64,
            },
        }
    }
}

// The sheet (1 to 7), and the lengths of index and table (8): how many items the sheet has.
// (Of these the lengths alone, since an opening has nothing in them yet.)
#[tactic(auto, using(crate::proofs::Admitting::count_small, crate::proofs::Admitting::measured_index, crate::proofs::Admitting::measured_table, crate::proofs::Admitting::measured_items))]
pub fn measure(
    sheet: &[u8],
    index_len: usize,
    table_len: usize,
    offsets: &mut [usize],
    levels: &mut [u8],
) -> Result<usize, Fault>
    requires { Room sheet.now offsets.old levels.old }
    ensures answer { admitted_meaning result ≡ measured_of sheet.now index_len table_len }
    ensures found { Scanned sheet.now offsets.old levels.old offsets.new levels.new }
{
    let opened = sheet::check(sheet, offsets, levels)?;
    if index_len != limits::INDEX_WIDTH * opened.count || table_len != table::WIDTH * opened.count {
        return Err(Cause::Lengths.into());
    }
    Ok(opened.count)
}

// Whether the table is in form, with true owed bytes (10).
fn table_formed(sheet: &Sheet<'_>, table: &[u8], owed: &mut [u8]) -> bool
    requires table_length { length table.now ≡ width * size (sheet_of sheet.now) }
    requires room { size (sheet_of sheet.now) ≤ length owed.old }
    ensures { result ≡ (table_form (sheet_of sheet.now) table.now && owed_true (sheet_of sheet.now) table.now) }
{
    (0..sheet.len()).all(|k| table::record_formed(table, k, sheet.item(k).is_figure()))
        && owing::owed_true(sheet, table, owed)
}

// All that is lent (1 to 10): how many items the sheet has. The array of levels serves for the owed bytes too, since memory is fixed, and
// what it holds at the end is left free. No sheet of items is given, since one that borrows the offsets could not say what they hold.
pub fn admit(
    sheet: &[u8],
    index: &[u8],
    table: &[u8],
    offsets: &mut [usize],
    levels: &mut [u8],
) -> Result<usize, Fault>
    requires { Room sheet.now offsets.old levels.old }
    ensures answer { admitted_meaning result ≡ admitted_of sheet.now index.now table.now }
    ensures found { Found sheet.now offsets.old offsets.new }
{
    let n = measure(sheet, index.len(), table.len(), offsets, levels)?;
    let placed = &offsets[..n];
    if !item::index_matches(placed, index) {
        return Err(Cause::Index.into());
    }
    if !table_formed(&Sheet::new(sheet, placed), table, levels) {
        return Err(Cause::Form.into());
    }
    Ok(n)
}

// The same, with the sheet and its items for what comes after.
// (Each call goes on from here in lines of its own: one frame of all would take a closure, whose contract repeats what the call requires.)
pub fn admitted<'a>(
    sheet: &'a [u8],
    index: &[u8],
    table: &[u8],
    offsets: &'a mut [usize],
    levels: &mut [u8],
) -> Result<Sheet<'a>, Fault>
    requires { Room sheet.now offsets.old levels.old }
    ensures { Admits sheet.now index.now table.now result }
{
    let n = admit(sheet, index, table, offsets, levels)?;
    Ok(Sheet::new(sheet, &offsets[..n]))
}

// The item of that number (11).
#[tactic(auto, unfolding(circuit::specs::Calls::first_cause))]
pub fn in_sheet(sheet: &Sheet<'_>, item: u64) -> Result<usize, Cause>
    ensures number { number_in result ≡ first_cause (test 11 (no_item (sheet_of sheet.now) item) ∷ []) }
    ensures found { ItemOf sheet.now item result }
{
    if item >= sheet.len() as u64 {
        return Err(Cause::NoItem);
    }
    // By a cast: below the sheet's length it keeps the number, where try_from would have a way to fail that cannot come.
    Ok(item as usize)
}

// The same (11), which has to be of the kind that the call takes (12).
#[tactic(auto, unfolding(circuit::specs::Calls::first_cause))]
pub fn find(sheet: &Sheet<'_>, item: u64, kind: Kind) -> Result<usize, Cause>
    ensures number { number_in result ≡ first_cause (test 11 (no_item (sheet_of sheet.now) item) ∷ test 12 (wrong_item kind (sheet_of sheet.now) item) ∷ []) }
    ensures found { ItemOf sheet.now item result }
    ensures kind { IfOk result (λ i. is_figure (item_at (sheet_of sheet.now) i) ≡ kind_meaning kind) }
{
    let i = in_sheet(sheet, item)?;
    if sheet.item(i).kind() != kind {
        return Err(Cause::WrongItem);
    }
    Ok(i)
}
