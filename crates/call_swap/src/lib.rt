// The call swap.
#![tactic(auto)]

ghost use Rattle.std.specs.Prelude.{◌≡◌, true, List, ℕ, IfOk};
ghost use Rattle.circuit.specs.Value.{well_formed};
ghost use Rattle.circuit.specs.Swap as machine_swap;
ghost use Rattle.circuit.specs.Call as machine_call;
ghost use Rattle.cause.specs.Cause.{number_in};
ghost use Rattle.value.specs.Meaning.{meaning};
ghost use Rattle.layout.specs.Opened.{sheet_of};
ghost use Rattle.layout.specs.Room.{Room};
ghost use Rattle.table.specs.Bytes.{owed_true};
ghost use Rattle.office.specs.Office.{call_on, keeping};
ghost use Rattle.admission.specs.Answers.{Did, Tried};
ghost use Rattle.admission.specs.Admission.{call_lent};
ghost use Rattle.looking.specs.Pass.{Lent};
ghost use Rattle.call_swap.specs.Results.{Entries, items_cause, results_meaning, swap_results};

use cause::{Cause, Fault};
use item::Sheet;
use value::Value;

// What the giver is left with, and what the taker comes to.
#[derive(Clone, Copy, PartialEq, Eq, Debug)]
struct Results {
    left: i64,
    come: i64,
}

// The two entries: 11 where either item is n or more, then 12 where either is a figure.
fn find_both(sheet: &Sheet<'_>, giver: u64, taker: u64) -> Result<(usize, usize), Cause>
    ensures number { number_in result ≡ items_cause (sheet_of sheet.now) giver taker }
    ensures found { IfOk result (λ p. Entries (sheet_of sheet.now) giver taker p.0 p.1) }
{
    let i = admission::in_sheet(sheet, giver)?;
    let j = admission::in_sheet(sheet, taker)?;
    if sheet.item(i).is_figure() || sheet.item(j).is_figure() {
        return Err(Cause::WrongItem);
    }
    Ok((i, j))
}

// One entry on both sides, or a quantity under 1 (18).
#[tactic(auto, unfolding(circuit::specs::Swap::no_swap))]
fn no_swap(giver: u64, taker: u64, quantity: i64) -> bool
    ensures { result ≡ machine_swap.no_swap giver taker quantity }
{
    giver == taker || quantity < 1
}

// The results of a swap, by the values that the entries hold; none where either is beyond the range, as each that overflows is.
fn swap_results(giver: Value, taker: Value, quantity: i64) -> Option<Results>
    requires giver_formed { well_formed (meaning giver) ≡ true }
    requires taker_formed { well_formed (meaning taker) ≡ true }
    ensures { results_meaning result ≡ swap_results (meaning giver) (meaning taker) quantity }
{
    let left = giver.number_or_zero().checked_sub(quantity)?;
    let come = taker.number_or_zero().checked_add(quantity)?;
    // (By if and else: with then_some the case that is refused would stand nowhere in the text.)
    if value::in_range(left) && value::in_range(come) {
        Some(Results { left, come })
    } else {
        None
    }
}

// The call on what was admitted.
fn swap_lent(
    sheet: &Sheet<'_>,
    table: &mut [u8],
    giver: u64,
    taker: u64,
    quantity: i64,
) -> Result<(), Cause>
    requires lent { Lent sheet.now table.old }
    requires owes { owed_true (sheet_of sheet.now) table.old ≡ true }
    ensures { (x : List ℕ) → Did (call_lent (sheet_of sheet.now) x table.old (machine_call.swap giver taker quantity)) result table.new }
{
    let (i, j) = find_both(sheet, giver, taker)?;
    if no_swap(giver, taker, quantity) {
        return Err(Cause::Swap);
    }
    let giver_holds = table::value_at(table, i);
    let taker_holds = table::value_at(table, j);
    let results = swap_results(giver_holds, taker_holds, quantity).ok_or(Cause::Amount)?;
    posting::store_posting(table, i, Value::number(results.left));
    posting::store_posting(table, j, Value::number(results.come));
    Ok(())
}

// The call, with scratch arrays: what they hold before counts for nothing, and what they hold afterwards is left free.
pub fn swap(
    sheet: &[u8],
    index: &[u8],
    table: &mut [u8],
    giver: u64,
    taker: u64,
    quantity: i64,
    offsets: &mut [usize],
    bytes: &mut [u8],
) -> Result<(), Fault>
    requires room { Room sheet.now offsets.old bytes.old }
    ensures { Tried (call_on sheet.now (keeping index.now table.old) (machine_call.swap giver taker quantity)) result table.new }
{
    let sheet = admission::admitted(sheet, index, table, offsets, bytes)?;
    // (By ? and then Ok: ? also makes a Fault of the call's Cause.)
    swap_lent(&sheet, table, giver, taker, quantity)?;
    Ok(())
}
