// Telling the children of an item.
#![tactic(auto)]

ghost use Rattle.std.specs.Prelude.{◌≡◌, true, ◌<◌};
ghost use Rattle.circuit.specs.Sheet.{size, item_at, is_figure};
ghost use Rattle.circuit.specs.Machine.{work_out, renewed, refresh_cleared};
ghost use Rattle.circuit.specs.Ascending.{tell_child_by, tell_by};
ghost use Rattle.layout.specs.Opened.{sheet_of};
ghost use Rattle.value.specs.Meaning.{meaning};
ghost use Rattle.item.specs.Item.{spread_meaning};
ghost use Rattle.table.specs.Bytes.{decode_table};
ghost use Rattle.table.specs.Meaning.{mark_meaning};
ghost use Rattle.owing.specs.Owing.{says_owed};
ghost use Rattle.memo.specs.Memo.{Right, NoneFrom};
ghost use Rattle.looking.specs.Pass.{Lent};
ghost use Rattle.telling.specs.Telling.{Moves, Telling, Renewable, told_by};

use children::Children;
use item::{Sheet, Spread};
use memo::Memo;
use table::{Cell, Mark};
use value::Value;

// What a stored child does when it is told: it is to be refreshed, or is worked out anew.
#[derive(Clone, Copy, PartialEq, Eq, Debug)]
pub enum Told {
    Refreshes,
    Renews,
}

fn told_by(spread: Spread, mark: Mark) -> Told
    ensures { result ≡ told_by (spread_meaning spread) (mark_meaning mark) }
{
    if spread == Spread::Defer && mark != Mark::Notice {
        Told::Refreshes
    } else {
        Told::Renews
    }
}

// The mark with a refresh cleared.
fn refresh_cleared(mark: Mark) -> Mark
    ensures { mark_meaning result ≡ refresh_cleared (mark_meaning mark) }
{
    looking::notice_if(mark == Mark::Notice)
}

// Works item i out anew, which holds a value: a different result is stored with notice, and an equal one leaves the value with
// the mark.
pub fn renew(
    sheet: &Sheet<'_>,
    table: &mut [u8],
    memo: &mut Memo<'_>,
    i: usize,
    value: Value,
    mark: Mark,
)
    requires lent { Lent sheet.now table.old }
    requires right { Right (sheet_of sheet.now) (decode_table table.old) memo.old }
    requires fresh { NoneFrom i memo.old }
    requires renewable { Renewable sheet.now table.old i (meaning value) }
    ensures { Moves sheet.now table.old memo.old.generation i (renewed i (meaning value) (mark_meaning mark) (work_out (sheet_of sheet.now) (decode_table table.old) i)) table.new memo.new }
{
    let fresh = looking::work_out(sheet, table, memo, i).value;
    // `same` and not `==`: it promises what the machine's test for equal results gives.
    if value.same(fresh) {
        table::store_cell(table, i, Cell::Held(value, mark));
    } else {
        table::store_cell(table, i, Cell::Held(fresh, Mark::Notice));
    }
}

// Tells child c that a parent has changed. If it is UNK, it gets notice where it is called on, and is passed over elsewhere.
// `called` is what the array says of the child: it decides whether an UNK one is stored, and an enum would say no more than yes or no.
fn tell_child(sheet: &Sheet<'_>, table: &mut [u8], memo: &mut Memo<'_>, c: usize, called: bool)
    requires lent { Lent sheet.now table.old }
    requires right { Right (sheet_of sheet.now) (decode_table table.old) memo.old }
    requires fresh { NoneFrom c memo.old }
    requires within { c < size (sheet_of sheet.now) }
    requires figured { is_figure (item_at (sheet_of sheet.now) c) ≡ true }
    ensures { Moves sheet.now table.old memo.old.generation c (tell_child_by called (sheet_of sheet.now) (decode_table table.old) c) table.new memo.new }
{
    match table::read_cell(table, c) {
        Cell::Unk(_) => {
            if called {
                table::store_cell(table, c, Cell::Unk(true));
            }
        }
        Cell::Held(value, mark) => match told_by(sheet.item(c).spread(), mark) {
            Told::Refreshes => table::store_cell(table, c, Cell::Held(value, Mark::Refresh)),
            Told::Renews => renew(sheet, table, memo, c, value, refresh_cleared(mark)),
        },
    }
}

// Tells the children of item i, lowest first, by their list. They have higher numbers. UNK children are called on where the array says that
// they are owed. Where it does not say so of item i, nobody is told: an array that is true says so if a child leans on i.
pub fn tell_children(
    sheet: &Sheet<'_>,
    table: &mut [u8],
    memo: &mut Memo<'_>,
    children: &Children<'_>,
    owed: &[u8],
    i: usize,
)
    requires lent { Lent sheet.now table.old }
    requires right { Right (sheet_of sheet.now) (decode_table table.old) memo.old }
    requires fresh { NoneFrom 0 memo.old }
    requires telling { Telling (sheet_of sheet.now) children.now owed.now i }
    ensures { Moves sheet.now table.old memo.old.generation (size (sheet_of sheet.now)) (tell_by (says_owed owed.now) (sheet_of sheet.now) (decode_table table.old) i) table.new memo.new }
{
    if owed[i] == 0 {
        return;
    }
    // No `for`: an iterator type over the edges would owe a proof of its trait, and the loop would need the same facts of each edge.
    let mut told = children.first(i);
    while let Some(edge) = told {
        let c = edge.child();
        tell_child(sheet, table, memo, c, owed[c] != 0);
        told = children.next(edge);
    }
}
