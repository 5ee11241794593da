// The functions that a C program calls: the openings, the eight calls and the printer, with numbers and byte slices. A slice is a
// pointer and a length in C; include/rozhinal.h declares them. Each is one call of the function that does the
// work, whose Result it hands out in the numbers that C takes.
#![tactic(auto)]

ghost use Rattle.circuit.specs.Call as call;
ghost use Rattle.circuit.specs.Call.{bare, full};
ghost use Rattle.office.specs.Office.{open_on, call_on, keeping};
ghost use Rattle.admission.specs.Answers.{Answered};
ghost use Rattle.call_open.specs.Opening.{Opened};
ghost use Rattle.call_ask.specs.Asking.{Asked};
ghost use Rattle.call_board.specs.Showing.{BoardShown};
ghost use Rattle.printer.specs.Contract.{PrintsCode};

use admission::Answer;
use call_ask::Reading;

#[unsafe(no_mangle)]
pub extern "C" fn rozhinal_open_bare(sheet: &[u8], index: &mut [u8], table: &mut [u8]) -> Answer
    ensures { Opened (open_on bare sheet.now (keeping index.old table.old)) result index.new table.new }
{
    Answer::from(calls::open_bare(sheet, index, table))
}

#[unsafe(no_mangle)]
pub extern "C" fn rozhinal_open_full(sheet: &[u8], index: &mut [u8], table: &mut [u8]) -> Answer
    ensures { Opened (open_on full sheet.now (keeping index.old table.old)) result index.new table.new }
{
    Answer::from(calls::open_full(sheet, index, table))
}

#[unsafe(no_mangle)]
pub extern "C" fn rozhinal_post(
    sheet: &[u8],
    index: &[u8],
    table: &mut [u8],
    item: u64,
    kind: u64,
    number: i64,
) -> Answer
    ensures { Answered (call_on sheet.now (keeping index.now table.old) (call.post item kind number)) result table.new }
{
    Answer::from(calls::post(sheet, index, table, item, kind, number))
}

#[unsafe(no_mangle)]
pub extern "C" fn rozhinal_swap(
    sheet: &[u8],
    index: &[u8],
    table: &mut [u8],
    giver: u64,
    taker: u64,
    quantity: i64,
) -> Answer
    ensures { Answered (call_on sheet.now (keeping index.now table.old) (call.swap giver taker quantity)) result table.new }
{
    Answer::from(calls::swap(sheet, index, table, giver, taker, quantity))
}

#[unsafe(no_mangle)]
pub extern "C" fn rozhinal_keep(sheet: &[u8], index: &[u8], table: &mut [u8], item: u64) -> Answer
    ensures { Answered (call_on sheet.now (keeping index.now table.old) (call.keep item)) result table.new }
{
    Answer::from(calls::keep(sheet, index, table, item))
}

#[unsafe(no_mangle)]
pub extern "C" fn rozhinal_drop(sheet: &[u8], index: &[u8], table: &mut [u8], item: u64) -> Answer
    ensures { Answered (call_on sheet.now (keeping index.now table.old) (call.drop item)) result table.new }
{
    Answer::from(calls::drop_figure(sheet, index, table, item))
}

#[unsafe(no_mangle)]
pub extern "C" fn rozhinal_step(sheet: &[u8], index: &[u8], table: &mut [u8], item: u64) -> Answer
    ensures { Answered (call_on sheet.now (keeping index.now table.old) (call.step item)) result table.new }
{
    Answer::from(calls::step(sheet, index, table, item))
}

#[unsafe(no_mangle)]
pub extern "C" fn rozhinal_ask(sheet: &[u8], index: &[u8], table: &mut [u8], item: u64) -> Reading
    ensures { Asked (call_on sheet.now (keeping index.now table.old) (call.ask item)) result table.new }
{
    Reading::from(calls::ask(sheet, index, table, item))
}

#[unsafe(no_mangle)]
pub extern "C" fn rozhinal_board(
    sheet: &[u8],
    index: &[u8],
    table: &mut [u8],
    items: &[u8],
    results: &mut [u8],
) -> Answer
    ensures { BoardShown (call_on sheet.now (keeping index.now table.old) (call.board items.now results.old)) result results.new table.new }
{
    Answer::from(calls::board(sheet, index, table, items, results))
}

#[unsafe(no_mangle)]
pub extern "C" fn rozhinal_close(sheet: &[u8], index: &[u8], table: &mut [u8]) -> Answer
    ensures { Answered (call_on sheet.now (keeping index.now table.old) call.close) result table.new }
{
    Answer::from(calls::close(sheet, index, table))
}

#[unsafe(no_mangle)]
pub extern "C" fn rozhinal_print(kind: u64, number: i64, scratch: &mut [u8]) -> i64
    ensures { PrintsCode kind number scratch.old result scratch.new }
{
    printer::print_code(kind, number, scratch)
}
