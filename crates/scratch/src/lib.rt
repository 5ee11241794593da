// The openings and calls with scratch arrays that have room for ROOM items, for sheets that say no more.
//
// None is inlined: each size of each call is a function of its own, whose arrays are on the stack only while a sheet of that size is
// worked on. Each lends the arrays that its call needs, and no more stack: so the same arrays stand in several bodies.
// What each requires stands as two clauses: a caller meets `most` by the numbers alone, and a record of the two would be no plainer.
#![tactic(auto)]

ghost use Rattle.std.specs.Prelude.{◌≤◌};
ghost use Rattle.circuit.specs.Call as machine_call;
ghost use Rattle.layout.specs.Room.{room_for};
ghost use Rattle.office.specs.Office.{open_on, call_on, keeping};
ghost use Rattle.admission.specs.Answers.{Tried};
ghost use Rattle.call_open.specs.Opening.{Opens, opening_by};
ghost use Rattle.call_ask.specs.Asking.{TriedValue};
ghost use Rattle.call_board.specs.Showing.{BoardTried};

use call_open::Opening;
use cause::Fault;
use children::{Children, Kin};
use memo::{Memo, Note};
use value::Value;

#[inline(never)]
pub fn open_by<const ROOM: usize>(
    sheet: &[u8],
    index: &mut [u8],
    table: &mut [u8],
    opening: Opening,
) -> Result<(), Fault>
    requires enough { room_for sheet.now ≤ ROOM }
    requires most { ROOM ≤ 4096 }
    ensures { Opens (open_on (opening_by opening) sheet.now (keeping index.old table.old)) result index.new table.new }
{
    let mut offsets = [0usize; ROOM];
    let mut bytes = [0u8; ROOM];
    call_open::open_by(sheet, index, table, opening, &mut offsets, &mut bytes)
}

#[inline(never)]
pub fn post<const ROOM: usize>(
    sheet: &[u8],
    index: &[u8],
    table: &mut [u8],
    item: u64,
    kind: u64,
    number: i64,
) -> Result<(), Fault>
    requires enough { room_for sheet.now ≤ ROOM }
    requires most { ROOM ≤ 4096 }
    ensures { Tried (call_on sheet.now (keeping index.now table.old) (machine_call.post item kind number)) result table.new }
{
    let mut offsets = [0usize; ROOM];
    let mut bytes = [0u8; ROOM];
    call_post::post(
        sheet,
        index,
        table,
        item,
        kind,
        number,
        &mut offsets,
        &mut bytes,
    )
}

#[inline(never)]
pub fn swap<const ROOM: usize>(
    sheet: &[u8],
    index: &[u8],
    table: &mut [u8],
    giver: u64,
    taker: u64,
    quantity: i64,
) -> Result<(), Fault>
    requires enough { room_for sheet.now ≤ ROOM }
    requires most { ROOM ≤ 4096 }
    ensures { Tried (call_on sheet.now (keeping index.now table.old) (machine_call.swap giver taker quantity)) result table.new }
{
    let mut offsets = [0usize; ROOM];
    let mut bytes = [0u8; ROOM];
    call_swap::swap(
        sheet,
        index,
        table,
        giver,
        taker,
        quantity,
        &mut offsets,
        &mut bytes,
    )
}

#[inline(never)]
pub fn keep<const ROOM: usize>(
    sheet: &[u8],
    index: &[u8],
    table: &mut [u8],
    item: u64,
) -> Result<(), Fault>
    requires enough { room_for sheet.now ≤ ROOM }
    requires most { ROOM ≤ 4096 }
    ensures { Tried (call_on sheet.now (keeping index.now table.old) (machine_call.keep item)) result table.new }
{
    let mut offsets = [0usize; ROOM];
    let mut bytes = [0u8; ROOM];
    let mut notes = [Note::NONE; ROOM];
    call_keep::keep(
        sheet,
        index,
        table,
        item,
        &mut offsets,
        &mut bytes,
        &mut Memo::new(&mut notes),
    )
}

#[inline(never)]
pub fn drop_figure<const ROOM: usize>(
    sheet: &[u8],
    index: &[u8],
    table: &mut [u8],
    item: u64,
) -> Result<(), Fault>
    requires enough { room_for sheet.now ≤ ROOM }
    requires most { ROOM ≤ 4096 }
    ensures { Tried (call_on sheet.now (keeping index.now table.old) (machine_call.drop item)) result table.new }
{
    let mut offsets = [0usize; ROOM];
    let mut bytes = [0u8; ROOM];
    call_keep::drop_figure(sheet, index, table, item, &mut offsets, &mut bytes)
}

#[inline(never)]
pub fn step<const ROOM: usize>(
    sheet: &[u8],
    index: &[u8],
    table: &mut [u8],
    item: u64,
) -> Result<(), Fault>
    requires enough { room_for sheet.now ≤ ROOM }
    requires most { ROOM ≤ 4096 }
    ensures { Tried (call_on sheet.now (keeping index.now table.old) (machine_call.step item)) result table.new }
{
    let mut offsets = [0usize; ROOM];
    let mut bytes = [0u8; ROOM];
    let mut notes = [Note::NONE; ROOM];
    let mut kin = [Kin::NONE; ROOM];
    call_step::step(
        sheet,
        index,
        table,
        item,
        &mut offsets,
        &mut bytes,
        &mut Memo::new(&mut notes),
        &mut Children::new(&mut kin),
    )
}

#[inline(never)]
pub fn ask<const ROOM: usize>(
    sheet: &[u8],
    index: &[u8],
    table: &mut [u8],
    item: u64,
) -> Result<Value, Fault>
    requires enough { room_for sheet.now ≤ ROOM }
    requires most { ROOM ≤ 4096 }
    ensures { TriedValue (call_on sheet.now (keeping index.now table.old) (machine_call.ask item)) result table.new }
{
    let mut offsets = [0usize; ROOM];
    let mut bytes = [0u8; ROOM];
    let mut notes = [Note::NONE; ROOM];
    let mut kin = [Kin::NONE; ROOM];
    call_ask::ask(
        sheet,
        index,
        table,
        item,
        &mut offsets,
        &mut bytes,
        &mut Memo::new(&mut notes),
        &mut Children::new(&mut kin),
    )
}

#[inline(never)]
pub fn board<const ROOM: usize>(
    sheet: &[u8],
    index: &[u8],
    table: &mut [u8],
    items: &[u8],
    results: &mut [u8],
) -> Result<(), Fault>
    requires enough { room_for sheet.now ≤ ROOM }
    requires most { ROOM ≤ 4096 }
    ensures { BoardTried (call_on sheet.now (keeping index.now table.old) (machine_call.board items.now results.old)) result results.new table.new }
{
    let mut offsets = [0usize; ROOM];
    let mut bytes = [0u8; ROOM];
    let mut notes = [Note::NONE; ROOM];
    let mut kin = [Kin::NONE; ROOM];
    call_board::board(
        sheet,
        index,
        table,
        items,
        results,
        &mut offsets,
        &mut bytes,
        &mut Memo::new(&mut notes),
        &mut Children::new(&mut kin),
    )
}

#[inline(never)]
pub fn close<const ROOM: usize>(sheet: &[u8], index: &[u8], table: &mut [u8]) -> Result<(), Fault>
    requires enough { room_for sheet.now ≤ ROOM }
    requires most { ROOM ≤ 4096 }
    ensures { Tried (call_on sheet.now (keeping index.now table.old) machine_call.close) result table.new }
{
    let mut offsets = [0usize; ROOM];
    let mut bytes = [0u8; ROOM];
    call_close::close(sheet, index, table, &mut offsets, &mut bytes)
}
