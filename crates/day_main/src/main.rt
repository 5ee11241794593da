// The day program: reads a sheet and a day log from the files sheet.bin and day.bin, and prints the day's lines.
#![tactic(auto)]

ghost use Rattle.std.specs.Prelude.{◌≡◌, ◌≤◌, length};
ghost use Rattle.day_main.specs.Files.{IsPrefixLen};
ghost use Rattle.day_meaning.specs.Day.{file_limit, run_day};
ghost use Rattle.day_meaning.specs.Room.{sheet_room, DayLent, Shown};

use day::FILE_LIMIT;
use limits::{INDEX_WIDTH, ITEM_LIMIT};
use std::fs::File;
use std::io::{Read, Write};

// What is taken of the sheet's file: a byte more than the limit, to know that it is over it.
const SHEET_ROOM: usize = FILE_LIMIT + 1;

// Index and table of the largest sheet.
const INDEX_ROOM: usize = INDEX_WIDTH * ITEM_LIMIT;

const TABLE_ROOM: usize = table::WIDTH * ITEM_LIMIT;

// The most output of a day whose sheet opens: so many bytes for each byte of its log, and so many more.
const TEXT_PER_BYTE: usize = 6;

const TEXT_BESIDES: usize = 13;

const OUTPUT_ROOM: usize = TEXT_PER_BYTE * FILE_LIMIT + TEXT_BESIDES;

// The next bytes of a file, into the front of the room for them. A read that fails gives none, as at the end.
// (As in sheet_cases, which reads its input: one of both would be generic over Read, in a crate of its own for two short functions.)
fn read_some(file: &mut File, bytes: &mut [u8]) -> usize
    ensures { result ≤ length bytes.new }
{
    file.read(bytes).unwrap_or(0)
}

// Reads until there is no more room, or until the file ends or a read fails: each turn goes on by what a read gave. (sheet_cases has the like
// for its input: two programs, and a crate for these lines, generic in what is read, would be no plainer.)
// (A length, and no part: the array stays the caller's, who cuts it.)
fn fill(file: &mut File, bytes: &mut [u8]) -> usize
    ensures { IsPrefixLen result bytes.new }
{
    let mut done = 0;
    while done < bytes.len() {
        let more = read_some(file, &mut bytes[done..]);
        if more == 0 {
            break;
        }
        done += more;
    }
    done
}

// The first bytes of a file, as many as there is room for. A file that does not open counts as empty.
fn load<const ROOM: usize>(rt: &HostRuntime, path: &str, bytes: &mut [u8; ROOM]) -> usize
    ensures front { IsPrefixLen result bytes.new }
    ensures room { length bytes.new ≡ ROOM }
{
    match File::open(rt, path) {
        Ok(mut file) => fill(&mut file, bytes),
        Err(_) => 0,
    }
}

// What is taken of the two files, sheet first: the room for each is the definitions', so that a sheet over the limit is known and a
// log is cut there.
fn load_files(
    rt: &HostRuntime,
    sheet: &mut [u8; SHEET_ROOM],
    log: &mut [u8; FILE_LIMIT],
) -> (usize, usize)
    ensures sheet { IsPrefixLen result.0 sheet.new × (length sheet.new ≡ sheet_room) }
    ensures log { IsPrefixLen result.1 log.new × (length log.new ≡ file_limit) }
{
    (load(rt, "sheet.bin", sheet), load(rt, "day.bin", log))
}

// Runs the day with lent bytes, which are enough for its whole text, and writes its lines to standard output, all of them, or as much as it takes.
fn show_day(
    rt: &HostRuntime,
    sheet: &[u8],
    log: &[u8],
    index: &mut [u8],
    table: &mut [u8],
    out: &mut [u8],
)
    requires { DayLent sheet.now log.now index.old table.old out.old }
    ensures { Shown (run_day sheet.now log.now index.old table.old) out.old index.new table.new out.new }
{
    let n = day::run_day(sheet, log, index, table, out);
    let _ = rt.stdout().write_all(&out[..n]);
}

fn main(rt: HostRuntime) {
    let mut sheet = [0u8; SHEET_ROOM];
    let mut log = [0u8; FILE_LIMIT];
    let mut index = [0u8; INDEX_ROOM];
    let mut table = [0u8; TABLE_ROOM];
    let mut out = [0u8; OUTPUT_ROOM];
    let (s, d) = load_files(&rt, &mut sheet, &mut log);
    show_day(
        &rt,
        &sheet[..s],
        &log[..d],
        &mut index,
        &mut table,
        &mut out,
    );
}
