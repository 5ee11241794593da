// The day program on lent bytes.
#![tactic(auto)]

ghost use Rattle.std.specs.Prelude.{◌≡◌, suc, ◌≤◌, length};
ghost use Rattle.cause.specs.Cause.{fault_number};
ghost use Rattle.printer.specs.Printing.{text_of};
ghost use Rattle.value.specs.Meaning.{parts_of};
ghost use Rattle.office.specs.Office.{call_on, keeping};
ghost use Rattle.call_ask.specs.Asking.{kind_in, value_in};
ghost use Rattle.day_order.specs.Orders.{order_meaning};
ghost use Rattle.day_meaning.specs.Lines.{Appended};
ghost use Rattle.day_meaning.specs.Day.{answer_line, reading_line, play_from, day_on, too_long, run_day, CarriedOut, PlayedOn, Ran};

use cause::{Cause, Fault};
use day_order::Order;
use value::Value;

// The most bytes of a sheet, and of a day log, which is cut there.
pub const FILE_LIMIT: usize = 65_536;

// The line of a call that gives no value.
fn answer_line(out: &mut [u8], at: usize, given: Result<(), Fault>) -> usize
    requires { at ≤ length out.old }
    ensures { Appended (answer_line (fault_number given)) out.old at result out.new }
{
    match given {
        Ok(()) => day_line::append(out, at, &day_line::OK_LINE),
        Err(fault) => day_line::no_line(out, at, fault.cause.number()),
    }
}

// The line of an ask.
fn reading_line(out: &mut [u8], at: usize, item: u64, read: Result<Value, Fault>) -> usize
    requires { at ≤ length out.old }
    ensures { Appended (reading_line item (fault_number read) (text_of (parts_of (kind_in read) (value_in read)))) out.old at result out.new }
{
    match read {
        Ok(value) => {
            let kind = u64::from(value.kind());
            day_line::ask_line(out, at, item, kind, value.number_or_zero())
        }
        Err(fault) => day_line::no_line(out, at, fault.cause.number()),
    }
}

// Makes a call, and appends its line.
fn carry_out(
    sheet: &[u8],
    index: &[u8],
    table: &mut [u8],
    order: Order,
    out: &mut [u8],
    at: usize,
) -> usize
    requires { at ≤ length out.old }
    ensures { CarriedOut (order_meaning order) (call_on sheet.now (keeping index.now table.old) (order_meaning order)) out.old at result table.new out.new }
{
    match order {
        Order::Post { item, kind, number } => {
            let given = calls::post(sheet, index, table, item, kind, number);
            answer_line(out, at, given)
        }
        Order::Keep(item) => answer_line(out, at, calls::keep(sheet, index, table, item)),
        Order::Drop(item) => answer_line(out, at, calls::drop_figure(sheet, index, table, item)),
        Order::Step(item) => answer_line(out, at, calls::step(sheet, index, table, item)),
        Order::Ask(item) => reading_line(out, at, item, calls::ask(sheet, index, table, item)),
    }
}

// The day log's calls, in order, until it ends or a field is at fault. The offset goes on by what a field says, so that there is no
// range to go over.
fn play(sheet: &[u8], index: &[u8], table: &mut [u8], log: &[u8], out: &mut [u8]) -> usize
    ensures { PlayedOn (play_from (suc (length log.now)) sheet.now index.now log.now 0 table.old) out.old result table.new out.new }
{
    let mut at: usize = 0;
    let mut count: usize = 0;
    loop {
        match day_order::order_at(log, at) {
            Ok(None) => return count,
            Ok(Some(placed)) => {
                count = carry_out(sheet, index, table, placed.order, out, count);
                at = placed.next;
            }
            Err(cause) => {
                // The offset is cast, here and below: there is no From<usize> for u64.
                return day_line::last_line(out, count, &day_line::DAY, cause.number(), at as u64);
            }
        }
    }
}

// The day with an index and a table of which all is lent on to the calls.
fn day_on(sheet: &[u8], log: &[u8], index: &mut [u8], table: &mut [u8], out: &mut [u8]) -> usize
    ensures { Ran (day_on sheet.now log.now index.old table.old) out.old result index.new table.new out.new }
{
    match calls::open_bare(sheet, index, table) {
        Ok(()) => play(sheet, index, table, log, out),
        Err(fault) => {
            let number = fault.cause.number();
            day_line::last_line(out, 0, &day_line::SHEET, number, fault.offset as u64)
        }
    }
}

// Whether a sheet is over the limit, by its length alone (19).
fn too_long(sheet: &[u8]) -> bool
    ensures { result ≡ too_long sheet.now }
{
    sheet.len() > FILE_LIMIT
}

// The day program: turns back a sheet over the limit before anything in it is read; else opens the sheet bare with the fronts
// of the index and the table, makes the day log's calls, and prints a line for each at the front of the output bytes. It gives
// the number of bytes that it has printed.
// (A number, and not the front part of out: the contract also says what the other bytes hold.)
pub fn run_day(
    sheet: &[u8],
    log: &[u8],
    index: &mut [u8],
    table: &mut [u8],
    out: &mut [u8],
) -> usize
    ensures { Ran (run_day sheet.now log.now index.old table.old) out.old result index.new table.new out.new }
{
    if too_long(sheet) {
        return day_line::last_line(out, 0, &day_line::SHEET, Cause::TooLong.number(), 0);
    }
    let n = sheet::count_said(sheet);
    let x = (limits::INDEX_WIDTH * n).min(index.len());
    let t = (table::WIDTH * n).min(table.len());
    day_on(sheet, log, &mut index[..x], &mut table[..t], out)
}
