// Looking up and working out. The two call each other up the circuit: parents have lower numbers.
// Sheet and table are lent apart, with the fact Lent. One struct of both with an invariant would borrow the table, and each contract
// would still have to say which bytes the caller gets back, as these are promised. Right, of the memo and the table's cells, goes beside Lent: a
// record of the two would be taken apart in each function. That an item is a figure is a fact of its number, since callers hold numbers.
#![tactic(auto)]

ghost use Rattle.std.specs.Prelude.{◌≡◌, true, false, ℕ, ◌+◌, ◌*◌, ◌<◌, ◌≤◌, length};
ghost use Rattle.circuit.specs.Table as circuit;
ghost use Rattle.circuit.specs.Sheet.{size, item_at, is_figure};
ghost use Rattle.circuit.specs.Machine.{look_up, work_out};
ghost use Rattle.layout.specs.Opened.{sheet_of};
ghost use Rattle.table.specs.Bytes.{decode_table};
ghost use Rattle.table.specs.Record.{width};
ghost use Rattle.table.specs.Meaning.{mark_meaning};
ghost use Rattle.memo.specs.Memo.{seen_meaning, recall_meaning, remembered, known_of, Right};
ghost use Rattle.looking.specs.Pass.{Lent, Leaves};

use item::Sheet;
use memo::{Memo, Seen};
use table::{Cell, Mark};
use value::{MAX_PARENTS, Value};

// The mark of an item by its flag. A function, and no From<bool>: its name says which mark a flag is.
pub fn notice_if(flag: bool) -> Mark
    ensures { mark_meaning result ≡ circuit.notice_if flag }
{
    if flag { Mark::Notice } else { Mark::Unmarked }
}

// What looking up item i gives without working it out: what is stored, whatever it is, or what is remembered.
fn known(table: &[u8], memo: &Memo<'_>, i: usize) -> Option<Seen>
    requires record_there { width * i + width ≤ length table.now }
    requires note_there { i < length memo.now.notes }
    ensures { recall_meaning result ≡ known_of (decode_table table.now i) (remembered memo.now i) }
{
    match table::read_cell(table, i) {
        Cell::Held(value, mark) => Some(Seen {
            value,
            flag: mark == Mark::Notice,
        }),
        Cell::Unk(_) => memo.recalled(i),
    }
}

#[cycle(look_unstored_look_up_work_out)]
pub fn look_up(sheet: &Sheet<'_>, table: &mut [u8], memo: &mut Memo<'_>, i: usize) -> Seen
    requires lent { Lent sheet.now table.old }
    requires right { Right (sheet_of sheet.now) (decode_table table.old) memo.old }
    requires within { i < size (sheet_of sheet.now) }
    ensures { (b : ℕ) → i < b → Leaves sheet.now table.old memo.old b (look_up (sheet_of sheet.now) (decode_table table.old) i) (seen_meaning result) table.new memo.new }
{
    match known(table, memo, i) {
        Some(seen) => seen,
        None => look_unstored(sheet, table, memo, i),
    }
}

// Looks up an item that is not stored: it is worked out, and flagged too if its own mark is notice. That is stored where the item is
// kept, and remembered elsewhere.
#[cycle(look_unstored_look_up_work_out)]
pub fn look_unstored(sheet: &Sheet<'_>, table: &mut [u8], memo: &mut Memo<'_>, i: usize) -> Seen
    requires lent { Lent sheet.now table.old }
    requires right { Right (sheet_of sheet.now) (decode_table table.old) memo.old }
    requires within { i < size (sheet_of sheet.now) }
    requires unstored { circuit.is_stored (decode_table table.old i) ≡ false }
    ensures { (b : ℕ) → i < b → Leaves sheet.now table.old memo.old b (look_up (sheet_of sheet.now) (decode_table table.old) i) (seen_meaning result) table.new memo.new }
{
    let noticed = table::is_noticed(table, i);
    let worked = work_out(sheet, table, memo, i);
    let value = worked.value;
    let flag = worked.flag | noticed;
    let seen = Seen { value, flag };
    if sheet.item(i).is_kept() {
        table::store_cell(table, i, Cell::Held(value, notice_if(flag)));
    } else {
        memo.remember(i, seen);
    }
    seen
}

// Works item i out: looks each of its parents up, in their listed order, and applies its rule.
#[cycle(look_unstored_look_up_work_out)]
#[tactic(auto, unfolding(circuit::specs::Rules::max_parents))]
pub fn work_out(sheet: &Sheet<'_>, table: &mut [u8], memo: &mut Memo<'_>, i: usize) -> Seen
    requires lent { Lent sheet.now table.old }
    requires right { Right (sheet_of sheet.now) (decode_table table.old) memo.old }
    requires within { i < size (sheet_of sheet.now) }
    requires figure { is_figure (item_at (sheet_of sheet.now) i) ≡ true }
    ensures { (b : ℕ) → i ≤ b → Leaves sheet.now table.old memo.old b (work_out (sheet_of sheet.now) (decode_table table.old) i) (seen_meaning result) table.new memo.new }
{
    // Not one with the closing's work_out: that reads records alone, while a look-up here is a call of the cycle, whose item gets lower.
    // The values stand in an array of fixed size, as there is no heap, and a loop gathers them: each look-up changes table and memo,
    // which no closure of a chain could share with the next.
    let item = sheet.item(i);
    let count = item.parent_count();
    let mut values = [Value::NULL; MAX_PARENTS];
    let mut flag = false;
    for k in 0..count {
        let seen = look_up(sheet, table, memo, item.parent(k));
        values[k] = seen.value;
        flag |= seen.flag;
    }
    Seen {
        value: item.evaluate(&values[..count]),
        flag,
    }
}
