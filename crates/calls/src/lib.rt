// The openings and the calls, each with the scratch arrays that its sheet asks for: for 128 items, 1,024 or 4,096, by the item count that
// the first field says. A sheet that says more is refused with the largest. Sheet, index and table go one by one, as C lends them.
#![tactic(auto)]

ghost use Rattle.std.specs.Prelude.{◌≡◌, ◌≤◌};
ghost use Rattle.layout.specs.Room.{room_for};
ghost use Rattle.circuit.specs.Call as machine_call;
ghost use Rattle.circuit.specs.Call.{bare, full};
ghost use Rattle.office.specs.Office.{open_on, call_on, keeping};
ghost use Rattle.admission.specs.Answers.{Tried};
ghost use Rattle.call_open.specs.Opening.{Opens, opening_by};
ghost use Rattle.call_ask.specs.Asking.{TriedValue};
ghost use Rattle.call_board.specs.Showing.{BoardTried};
ghost use Rattle.calls.specs.Rooms.{room_of, least_for};

use call_open::Opening;
use cause::Fault;
use value::Value;

const SMALL: usize = 128;

const MEDIUM: usize = 1024;

const LARGE: usize = 4096;

#[derive(Clone, Copy, PartialEq, Eq, Debug)]
enum Size {
    Small,
    Medium,
    Large,
}

// The least size that has the room that the sheet's items need.
fn size_for(sheet: &[u8]) -> Size
    ensures least { result ≡ least_for (room_for sheet.now) }
    ensures enough { room_for sheet.now ≤ room_of result }
{
    let room = sheet::room_for(sheet);
    if room <= SMALL {
        Size::Small
    } else if room <= MEDIUM {
        Size::Medium
    } else {
        Size::Large
    }
}

// A function of scratch at the size for the sheet. The size is in the function's type, so each size is a call of its own. A macro, since
// the calls take different things: a function would take three closures, each of which would borrow the table, and would be no plainer.
macro_rules! by_size {
    ($call:ident, $sheet:ident $(, $rest:expr)*) => {
        match size_for($sheet) {
            Size::Small => scratch::$call::<SMALL>($sheet $(, $rest)*),
            Size::Medium => scratch::$call::<MEDIUM>($sheet $(, $rest)*),
            Size::Large => scratch::$call::<LARGE>($sheet $(, $rest)*),
        }
    };
}

fn open_by(sheet: &[u8], index: &mut [u8], table: &mut [u8], opening: Opening) -> Result<(), Fault>
    ensures { Opens (open_on (opening_by opening) sheet.now (keeping index.old table.old)) result index.new table.new }
{
    by_size!(open_by, sheet, index, table, opening)
}

// Opening with every figure UNK.
pub fn open_bare(sheet: &[u8], index: &mut [u8], table: &mut [u8]) -> Result<(), Fault>
    ensures { Opens (open_on bare sheet.now (keeping index.old table.old)) result index.new table.new }
{
    open_by(sheet, index, table, Opening::Bare)
}

// Opening with every figure NULL.
pub fn open_full(sheet: &[u8], index: &mut [u8], table: &mut [u8]) -> Result<(), Fault>
    ensures { Opens (open_on full sheet.now (keeping index.old table.old)) result index.new table.new }
{
    open_by(sheet, index, table, Opening::Full)
}

pub fn post(
    sheet: &[u8],
    index: &[u8],
    table: &mut [u8],
    item: u64,
    kind: u64,
    number: i64,
) -> Result<(), Fault>
    ensures { Tried (call_on sheet.now (keeping index.now table.old) (machine_call.post item kind number)) result table.new }
{
    by_size!(post, sheet, index, table, item, kind, number)
}

pub fn swap(
    sheet: &[u8],
    index: &[u8],
    table: &mut [u8],
    giver: u64,
    taker: u64,
    quantity: i64,
) -> Result<(), Fault>
    ensures { Tried (call_on sheet.now (keeping index.now table.old) (machine_call.swap giver taker quantity)) result table.new }
{
    by_size!(swap, sheet, index, table, giver, taker, quantity)
}

pub fn keep(sheet: &[u8], index: &[u8], table: &mut [u8], item: u64) -> Result<(), Fault>
    ensures { Tried (call_on sheet.now (keeping index.now table.old) (machine_call.keep item)) result table.new }
{
    by_size!(keep, sheet, index, table, item)
}

pub fn drop_figure(sheet: &[u8], index: &[u8], table: &mut [u8], item: u64) -> Result<(), Fault>
    ensures { Tried (call_on sheet.now (keeping index.now table.old) (machine_call.drop item)) result table.new }
{
    by_size!(drop_figure, sheet, index, table, item)
}

pub fn step(sheet: &[u8], index: &[u8], table: &mut [u8], item: u64) -> Result<(), Fault>
    ensures { Tried (call_on sheet.now (keeping index.now table.old) (machine_call.step item)) result table.new }
{
    by_size!(step, sheet, index, table, item)
}

pub fn ask(sheet: &[u8], index: &[u8], table: &mut [u8], item: u64) -> Result<Value, Fault>
    ensures { TriedValue (call_on sheet.now (keeping index.now table.old) (machine_call.ask item)) result table.new }
{
    by_size!(ask, sheet, index, table, item)
}

pub fn board(
    sheet: &[u8],
    index: &[u8],
    table: &mut [u8],
    items: &[u8],
    results: &mut [u8],
) -> Result<(), Fault>
    ensures { BoardTried (call_on sheet.now (keeping index.now table.old) (machine_call.board items.now results.old)) result results.new table.new }
{
    by_size!(board, sheet, index, table, items, results)
}

pub fn close(sheet: &[u8], index: &[u8], table: &mut [u8]) -> Result<(), Fault>
    ensures { Tried (call_on sheet.now (keeping index.now table.old) machine_call.close) result table.new }
{
    by_size!(close, sheet, index, table)
}
