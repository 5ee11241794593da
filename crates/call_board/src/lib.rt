// The call board: the values of up to 64 items, with one catching up and one memo for all of them.
#![tactic(auto)]

ghost use Rattle.std.specs.Prelude.{◌≡◌, List, ℕ, ◌+◌, ◌*◌, ◌≤◌, length};
ghost use Rattle.circuit.specs.Value.{kind_of, number_of};
ghost use Rattle.circuit.specs.Board.{result_width, listed, lists_off};
ghost use Rattle.circuit.specs.Calls.{some_no_item};
ghost use Rattle.circuit.specs.Machine as machine;
ghost use Rattle.circuit.specs.Call as machine_call;
ghost use Rattle.value.specs.Meaning.{meaning};
ghost use Rattle.layout.specs.Opened.{sheet_of};
ghost use Rattle.layout.specs.Room.{Room};
ghost use Rattle.table.specs.Rows.{set_row};
ghost use Rattle.table.specs.Bytes.{decode_table};
ghost use Rattle.office.specs.Office.{call_on, keeping, result_of};
ghost use Rattle.children.specs.Children.{Kept};
ghost use Rattle.memo.specs.Memo.{Right};
ghost use Rattle.looking.specs.Pass.{Lent};
ghost use Rattle.stepping.specs.Stepping.{Ready, Prepared, begun};
ghost use Rattle.admission.specs.Admission.{call_lent};
ghost use Rattle.call_board.specs.Showing.{BoardDid, BoardTried, Listed, Shown};

use cause::{Cause, Fault};
use children::Children;
use item::Sheet;
use memo::Memo;
use value::Value;

// The bytes of an item in the list, those of its result, and the most items of a list. The definitions have these numbers too, and the
// proofs pin them: code does not read a definition.
const LISTED_WIDTH: usize = 2;

const RESULT_WIDTH: usize = 9;

const MOST_LISTED: usize = 64;

// Whether the list is of odd length or too long, or the results are not as many (17). (By the lengths: nothing else is judged here.)
#[tactic(auto, unfolding(circuit::specs::Board::lists_off))]
fn lists_wrong(items_len: usize, results_len: usize) -> bool
    ensures { result ≡ lists_off items_len results_len }
{
    let count = items_len / LISTED_WIDTH;
    !(items_len % LISTED_WIDTH == 0 && count <= MOST_LISTED && results_len == RESULT_WIDTH * count)
}

// Whether an item of the list is not the sheet's (11).
fn some_no_item(sheet: &Sheet<'_>, items: &[u8]) -> bool
    ensures { result ≡ some_no_item (sheet_of sheet.now) (listed items.now) }
{
    let n = sheet.len();
    items
        .chunks_exact(LISTED_WIDTH)
        .any(|pair| n <= field::u16_at(pair, 0))
}

// Writes the kind and the number of a value as result k, and changes no other byte.
fn write_result(results: &mut [u8], k: usize, value: Value)
    requires { result_width * k + result_width ≤ length results.old }
    ensures { results.new ≡ set_row result_width results.old k (result_of (kind_of (meaning value)) (number_of (meaning value))) }
{
    let at = RESULT_WIDTH * k;
    results[at] = value.kind();
    word::write_i64(results, at + 1, value.number_or_zero());
}

// Looks the items up in list order, in one generation, and writes their results by their places: C lends items and results in two arrays,
// and nothing is known of what is written through an adapter of `chunks_exact_mut`, as in a `zip` of the two.
fn show_each(
    sheet: &Sheet<'_>,
    table: &mut [u8],
    memo: &mut Memo<'_>,
    items: &[u8],
    results: &mut [u8],
)
    requires lent { Lent sheet.now table.old }
    requires right { Right (sheet_of sheet.now) (decode_table table.old) memo.old }
    requires lists { Listed sheet.now items.now results.old }
    ensures { Shown sheet.now (machine.gather (machine.look_up (sheet_of sheet.now)) (decode_table table.old) (listed items.now)) results.new table.new }
{
    for (k, pair) in items.chunks_exact(LISTED_WIDTH).enumerate() {
        let seen = looking::look_up(sheet, table, memo, field::u16_at(pair, 0));
        write_result(results, k, seen.value);
    }
}

// Catches up, and shows the items in the generation after those of the steps, which call_ask begins so too (catching says why). (The cast:
// there is no From<usize> for u64.)
fn show(
    sheet: &Sheet<'_>,
    table: &mut [u8],
    items: &[u8],
    results: &mut [u8],
    owed: &mut [u8],
    memo: &mut Memo<'_>,
    children: &mut Children<'_>,
)
    requires prepared { Prepared sheet.now table.old owed.old (begun memo.old 1) children.old }
    requires lists { Listed sheet.now items.now results.old }
    ensures { Shown sheet.now (machine.gather (machine.look_up (sheet_of sheet.now)) (machine.catch_up (sheet_of sheet.now) (decode_table table.old)) (listed items.now)) results.new table.new }
{
    catching::catch_up(sheet, table, memo, children, owed);
    memo.begin((2 * sheet.len() + 1) as u64);
    show_each(sheet, table, memo, items, results);
}

// The board on what was admitted: its own tests, and then the results and the table.
fn board_lent(
    sheet: &Sheet<'_>,
    table: &mut [u8],
    items: &[u8],
    results: &mut [u8],
    owed: &mut [u8],
    memo: &mut Memo<'_>,
    children: &mut Children<'_>,
) -> Result<(), Cause>
    requires prepared { Prepared sheet.now table.old owed.old (begun memo.old 1) children.old }
    ensures { (x : List ℕ) → BoardDid (call_lent (sheet_of sheet.now) x table.old (machine_call.board items.now results.old)) result results.new table.new }
{
    if lists_wrong(items.len(), results.len()) {
        return Err(Cause::List);
    }
    if some_no_item(sheet, items) {
        return Err(Cause::NoItem);
    }
    if items.is_empty() {
        return Ok(());
    }
    show(sheet, table, items, results, owed, memo, children);
    owing::settle(sheet, table, owed);
    Ok(())
}

// Shows the items of a list: 1 to 10, then 17, then 11, then the values. In the scratch arrays nothing is remembered for the generations
// of the steps, and the lists of children are built already or empty: what they hold afterwards is left free.
pub fn board(
    sheet: &[u8],
    index: &[u8],
    table: &mut [u8],
    items: &[u8],
    results: &mut [u8],
    offsets: &mut [usize],
    bytes: &mut [u8],
    memo: &mut Memo<'_>,
    children: &mut Children<'_>,
) -> Result<(), Fault>
    requires room { Room sheet.now offsets.old bytes.old }
    requires ready { Ready sheet.now (begun memo.old 1) }
    requires kept { Kept (sheet_of sheet.now) children.old }
    ensures { BoardTried (call_on sheet.now (keeping index.now table.old) (machine_call.board items.now results.old)) result results.new table.new }
{
    let sheet = admission::admitted(sheet, index, table, offsets, bytes)?;
    // (By ? and then Ok: ? also makes a Fault of the call's Cause.)
    board_lent(&sheet, table, items, results, bytes, memo, children)?;
    Ok(())
}
