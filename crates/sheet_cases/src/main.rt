// Checks the sheets of standard input, and writes a line for each: its edition, its item count and the places of its items
// (offset/level; of more than eight items the first eight and the last), or the number and the offset of its fault.
// A case is two fields: a label and a sheet. What standard output does not take is left out.
#![tactic(auto)]

ghost use Rattle.std.specs.Prelude.{◌≤◌, ◌<◌, length, IfSome};
ghost use Rattle.layout.specs.Layout.{most_items};
ghost use Rattle.sheet_cases.specs.Cases.{case_at, Checks, Runs};

use std::io::{Read, Write};

const SHOWN: usize = 8;

// The most bytes that are read of standard input.
const INPUT_ROOM: usize = 65536;

fn write_number(rt: &HostRuntime, n: usize) {
    let _ = print!(rt; " {n}");
}

fn write_place(rt: &HostRuntime, offset: usize, level: u8) {
    write_number(rt, offset);
    let _ = print!(rt; "/{level}");
}

// The places of the first eight items, and of the last where there are more.
fn write_places(rt: &HostRuntime, offsets: &[usize], levels: &[u8]) {
    for (offset, level) in offsets.iter().zip(levels.iter()).take(SHOWN) {
        write_place(rt, *offset, *level);
    }
    if SHOWN < offsets.len() {
        if let (Some(offset), Some(level)) = (offsets.last(), levels.last()) {
            write_place(rt, *offset, *level);
        }
    }
}

fn write_answer(rt: &HostRuntime, s: &[u8], offsets: &mut [usize], levels: &mut [u8])
    requires { (most_items ≤ length offsets.old) × (most_items ≤ length levels.old) }
    ensures { Checks s.now offsets.old levels.old offsets.new levels.new }
{
    match sheet::check(s, offsets, levels) {
        Ok(opened) => {
            let _ = print!(rt; ": OPENS");
            write_number(rt, opened.edition);
            write_number(rt, opened.count);
            write_places(rt, &offsets[..opened.count], &levels[..opened.count]);
        }
        Err(fault) => {
            let number = fault.cause.number();
            let _ = print!(rt; ": REFUSED {number}");
            write_number(rt, fault.offset);
        }
    }
    let _ = println!(rt);
}

// The case at an offset. Gives the offset after it; None where there is no whole case.
fn run_case(
    rt: &HostRuntime,
    cases: &[u8],
    at: usize,
    offsets: &mut [usize],
    levels: &mut [u8],
) -> Option<usize>
    requires { (most_items ≤ length offsets.old) × (most_items ≤ length levels.old) }
    ensures onward { IfSome result (λ next. at < next) }
    ensures within { IfSome result (λ next. next ≤ length cases.now) }
    ensures left { Runs offsets.old levels.old result offsets.new levels.new (case_at cases.now at) }
{
    let label = field::field_at(cases, at).ok()?;
    let sheet = field::field_at(cases, label.next).ok()?;
    let _ = rt.stdout().write_all(&cases[label.start..label.next]);
    write_answer(rt, &cases[sheet.start..sheet.next], offsets, levels);
    Some(sheet.next)
}

fn run(rt: &HostRuntime, cases: &[u8]) {
    let mut offsets = [0usize; limits::ITEM_LIMIT];
    let mut levels = [0u8; limits::ITEM_LIMIT];
    let mut at = 0;
    // Where the next case stands is what the one before gives.
    while let Some(next) = run_case(rt, cases, at, &mut offsets, &mut levels) {
        at = next;
    }
}

// The next bytes of standard input, into the front of the room for them. A read that fails gives none, as at the end.
// (As in day_main, which reads a file: one of both would be generic over Read, in a crate of its own for two short functions.)
fn read_some(rt: &HostRuntime, bytes: &mut [u8]) -> usize
    ensures { result ≤ length bytes.new }
{
    rt.stdin().read(bytes).unwrap_or(0)
}

// Reads until there is no more room, or until the input ends or a read fails.
// (A length, and no part: the array stays the caller's, who cuts it.)
fn fill(rt: &HostRuntime, bytes: &mut [u8]) -> usize
    ensures { result ≤ length bytes.new }
{
    let mut done = 0;
    // Read by read: how far one comes is what it gives.
    while done < bytes.len() {
        let more = read_some(rt, &mut bytes[done..]);
        if more == 0 {
            break;
        }
        done += more;
    }
    done
}

fn main(rt: HostRuntime) {
    let mut input = [0u8; INPUT_ROOM];
    let n = fill(&rt, &mut input);
    run(&rt, &input[..n]);
}
