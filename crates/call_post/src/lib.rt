// The call post.
#![tactic(auto)]

ghost use Rattle.std.specs.Prelude.{◌≡◌, true, List, ℕ};
ghost use Rattle.circuit.specs.Call as machine_call;
ghost use Rattle.circuit.specs.Calls as machine_calls;
ghost use Rattle.value.specs.Meaning.{parts_meaning};
ghost use Rattle.layout.specs.Opened.{sheet_of};
ghost use Rattle.layout.specs.Room.{Room};
ghost use Rattle.table.specs.Bytes.{owed_true};
ghost use Rattle.office.specs.Office.{call_on, keeping};
ghost use Rattle.admission.specs.Answers.{Did, Tried};
ghost use Rattle.admission.specs.Admission.{call_lent};
ghost use Rattle.looking.specs.Pass.{Lent};

use cause::{Cause, Fault};
use item::{Kind, Sheet};
use value::Value;

// The value of a post, if it can be posted (13). (The call takes a kind and a number, as C gives them, since 13 comes after 11 and 12.)
#[tactic(auto, unfolding(circuit::specs::Value::parts_of, circuit::specs::Calls::posted_value))]
fn posted(kind: u64, number: i64) -> Option<Value>
    ensures { parts_meaning result ≡ machine_calls.posted_value kind number }
{
    Value::from_parts(kind, number).filter(|value| !value.is_out())
}

// The call on what was admitted.
fn post_lent(
    sheet: &Sheet<'_>,
    table: &mut [u8],
    item: u64,
    kind: u64,
    number: i64,
) -> Result<(), Cause>
    requires lent { Lent sheet.now table.old }
    requires owes { owed_true (sheet_of sheet.now) table.old ≡ true }
    ensures { (x : List ℕ) → Did (call_lent (sheet_of sheet.now) x table.old (machine_call.post item kind number)) result table.new }
{
    let i = admission::find(sheet, item, Kind::Entry)?;
    let value = posted(kind, number).ok_or(Cause::Amount)?;
    posting::store_posting(table, i, value);
    Ok(())
}

// The call, with scratch arrays: what they hold before counts for nothing, and what they hold afterwards is left free.
pub fn post(
    sheet: &[u8],
    index: &[u8],
    table: &mut [u8],
    item: u64,
    kind: u64,
    number: i64,
    offsets: &mut [usize],
    bytes: &mut [u8],
) -> Result<(), Fault>
    requires room { Room sheet.now offsets.old bytes.old }
    ensures { Tried (call_on sheet.now (keeping index.now table.old) (machine_call.post item kind number)) result table.new }
{
    let sheet = admission::admitted(sheet, index, table, offsets, bytes)?;
    // (By ? and then Ok: ? also makes a Fault of the call's Cause.)
    post_lent(&sheet, table, item, kind, number)?;
    Ok(())
}
