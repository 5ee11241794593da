// Sheets: the check of a sheet's bytes.
#![tactic(auto)]

ghost use Rattle.std.specs.Prelude.{◌≡◌, ◌&&◌, List, ◌*◌, ◌≤◌, length, IfOk};
ghost use Rattle.cause.specs.Cause.{number_in};
ghost use Rattle.circuit.specs.Board.{listed};
ghost use Rattle.circuit.specs.Calls.{first_cause};
ghost use Rattle.layout.specs.Layout.{figure_tag, parent_at, rule_allowed, keep_allowed, spread_allowed, name_allowed};
ghost use Rattle.layout.specs.Read.{Placed, head_tests, last_tests, going, scan, scan_last, conclude, read_sheet};
ghost use Rattle.layout.specs.Content.{edition_in, count_in, rule_in, keep_in, spread_in};
ghost use Rattle.layout.specs.Opened.{offsets_of, levels_of};
ghost use Rattle.layout.specs.Room.{count_said, room_for, Room};
ghost use Rattle.field.specs.Bytes.{over};
ghost use Rattle.sheet.specs.Check.{checked_of, checked_meaning, judged_item, judged_meaning, WholeField, cause_at, sound_items, read_so_far, level_over};

use cause::{Cause, Fault};
use field::Field;
use limits::{
    COUNT_AT, ENTRY_TAG, FIGURE_TAG, HEAD_LENGTH, HEAD_TAG, KEEP_AT, LAST_TAG, LEVEL_LIMIT,
    NAME_LIMIT, PARENT_COUNT_AT, PARENT_WIDTH, PARENTS_AT, RULE_AT, SPREAD_AT,
};

// What the first field of a sheet without a fault in it says: the sheet's edition and its item count.
// (The edition is a number, as in limits, whose functions take any.)
#[derive(Clone, Copy, PartialEq, Eq, Debug)]
pub struct Opened {
    pub edition: usize,
    pub count: usize,
}

// Whether the bytes are a name.
#[tactic(auto, using(crate::proofs::Names::name_empty, crate::proofs::Names::name_long), unfolding(layout::specs::Layout::name_limit))]
fn name_allowed(name: &[u8]) -> bool
    ensures { result ≡ name_allowed name.now }
{
    match name.len() {
        1..=NAME_LIMIT => name.iter().all(|b| limits::name_byte(*b)),
        _ => false,
    }
}

// One more than the highest level of the parents, whose numbers stand in two bytes each; none where one is no earlier item.
// (The levels are those of the earlier items, whose number is their length.)
fn level_over(parents: &[u8], levels: &[u8]) -> Option<usize>
    ensures { result ≡ level_over levels.now (listed parents.now) }
{
    let mut highest: usize = 0;
    for pair in parents.chunks_exact(PARENT_WIDTH) {
        let parent = field::u16_at(pair, 0);
        if levels.len() <= parent {
            return None;
        }
        highest = highest.max(usize::from(levels[parent]));
    }
    Some(highest + 1)
}

// Whether the rule, keep and spread of a figure's content are allowed, with p parents.
fn figure_allowed(edition: usize, content: &[u8], p: usize) -> bool
    requires { parent_at 0 ≤ length content.now }
    ensures { result ≡ (rule_allowed (rule_in content.now) p && keep_allowed (keep_in content.now) && spread_allowed edition (spread_in content.now)) }
{
    rules::operation_of(content[RULE_AT], p).is_some()
        && limits::keep_allowed(content[KEEP_AT])
        && limits::spread_allowed(edition, content[SPREAD_AT])
}

// The content of a figure: its level, or its lowest cause. (Its level is at most the limit where it is cast.)
#[tactic(auto, using(crate::proofs::Judging::figure_short, crate::proofs::Judging::figure_narrow, crate::proofs::Judging::figure_unnamed, crate::proofs::Judging::figure_unruled))]
fn judge_figure(content: &[u8], edition: usize, levels: &[u8]) -> Result<u8, Cause>
    ensures { (ps : List Placed) → levels.now ≡ levels_of ps → judged_meaning result ≡ judged_item edition ps figure_tag content.now }
{
    // Two tests of one cause: the second needs the parent count, which the first makes sure of.
    if content.len() < PARENTS_AT {
        return Err(Cause::LengthOrName);
    }
    let p = usize::from(content[PARENT_COUNT_AT]);
    let before = PARENTS_AT + PARENT_WIDTH * p;
    if content.len() < before || !name_allowed(&content[before..]) {
        return Err(Cause::LengthOrName);
    }
    if !figure_allowed(edition, content, p) {
        return Err(Cause::Rule);
    }
    let level = level_over(&content[PARENTS_AT..before], levels).ok_or(Cause::Parent)?;
    if LEVEL_LIMIT < level {
        return Err(Cause::Level);
    }
    Ok(level as u8)
}

// The tag and the content of an item's field: the item's level, or its lowest cause.
#[tactic(auto, using(crate::proofs::Judging::entry_judged, crate::proofs::Judging::other_judged))]
fn judge_item(tag: u8, content: &[u8], edition: usize, levels: &[u8]) -> Result<u8, Cause>
    ensures { (ps : List Placed) → levels.now ≡ levels_of ps → judged_meaning result ≡ judged_item edition ps tag content.now }
{
    if tag == FIGURE_TAG {
        return judge_figure(content, edition, levels);
    }
    if tag != ENTRY_TAG {
        return Err(Cause::Tag);
    }
    if !name_allowed(content) {
        return Err(Cause::LengthOrName);
    }
    Ok(0)
}

// The tag and the content of the first field: what it says, or its lowest cause.
#[tactic(auto, unfolding(layout::specs::Read::head_tests, circuit::specs::Calls::first_cause))]
fn judge_head(tag: u8, content: &[u8]) -> Result<Opened, Cause>
    ensures number { number_in result ≡ first_cause (head_tests tag content.now) }
    ensures edition { IfOk result (λ o. o.edition ≡ edition_in content.now) }
    ensures count { IfOk result (λ o. o.count ≡ count_in content.now) }
{
    if tag != HEAD_TAG {
        return Err(Cause::Tag);
    }
    if content.len() != HEAD_LENGTH {
        return Err(Cause::LengthOrName);
    }
    let edition = field::u16_at(content, 0);
    let count = field::u16_at(content, COUNT_AT);
    if !limits::edition_known(edition) || !limits::count_allowed(edition, count) {
        return Err(Cause::EditionOrCount);
    }
    Ok(Opened { edition, count })
}

// The tag and the content of the last field: its lowest cause, if it has one.
#[tactic(auto, unfolding(layout::specs::Read::last_tests, circuit::specs::Calls::first_cause))]
fn judge_last(tag: u8, content: &[u8]) -> Result<(), Cause>
    ensures { number_in result ≡ first_cause (last_tests tag content.now) }
{
    if tag != LAST_TAG {
        return Err(Cause::Tag);
    }
    if !content.is_empty() {
        return Err(Cause::LengthOrName);
    }
    Ok(())
}

// The field at an offset, which has to be there whole (1).
#[tactic(auto, using(crate::proofs::Fields::whole, crate::proofs::Fields::not_whole))]
fn whole_field(s: &[u8], at: usize) -> Result<Field, Fault>
    ensures { WholeField s.now at result }
{
    field::field_at(s, at).map_err(|_| Fault {
        cause: Cause::Cut,
        offset: at,
    })
}

// A cause at the offset of its field.
fn at_field<T>(judged: Result<T, Cause>, offset: usize) -> Result<T, Fault>
    ensures { result ≡ cause_at offset judged }
{
    judged.map_err(|cause| Fault { cause, offset })
}

// The last field, at an offset, after as many items as the first field says.
fn check_last(s: &[u8], at: usize, opened: Opened) -> Result<Opened, Fault>
    ensures { (ps : List Placed) → length ps ≡ opened.count → checked_meaning result ≡ checked_of (conclude opened.edition (scan_last s.now (going at ps))) }
{
    let last = whole_field(s, at)?;
    at_field(judge_last(last.tag, &s[last.start..last.next]), at)?;
    if last.next < s.len() {
        return Err(Fault {
            cause: Cause::Tag,
            offset: last.next,
        });
    }
    Ok(opened)
}

// The items and the last field.
fn check_items(
    s: &[u8],
    opened: Opened,
    offsets: &mut [usize],
    levels: &mut [u8],
) -> Result<Opened, Fault>
    requires { (opened.count ≤ length offsets.old) × (opened.count ≤ length levels.old) }
    ensures answer { checked_meaning result ≡ checked_of (conclude opened.edition (scan_last s.now (scan s.now opened.edition opened.count))) }
    ensures found { offsets.new ≡ over (offsets_of (sound_items s.now opened.edition opened.count)) offsets.old }
    ensures leveled { levels.new ≡ over (levels_of (sound_items s.now opened.edition opened.count)) levels.old }
{
    let mut at = limits::HEAD_NEXT;
    // By number, and not over the arrays: judging an item reads the levels of the items before it.
    for i in 0..opened.count {
        let found = whole_field(s, at)?;
        let content = &s[found.start..found.next];
        let level = at_field(
            judge_item(found.tag, content, opened.edition, &levels[..i]),
            at,
        )?;
        offsets[i] = at;
        levels[i] = level;
        at = found.next;
    }
    check_last(s, at, opened)
}

// Where a sheet has its item count.
const SAID_AT: usize = field::HEADER_LENGTH + COUNT_AT;

// The item count that the first field says. Nothing else of the sheet is looked at. 0 where the sheet ends before it, and not None: the
// definition has 0 there.
#[tactic(auto, using(layout::proofs::Causes::count_same), unfolding(layout::specs::Room::count_said))]
pub fn count_said(s: &[u8]) -> usize
    ensures said { result ≡ count_said s.now }
    ensures small { result ≤ 65535 }
{
    if s.len() < limits::HEAD_NEXT {
        return 0;
    }
    field::u16_at(s, SAID_AT)
}

// The room that the sheet's items need in an array.
#[tactic(auto, unfolding(layout::specs::Room::room_for, layout::specs::Layout::most_items, layout::specs::Layout::item_limit))]
pub fn room_for(s: &[u8]) -> usize
    ensures { result ≡ room_for s.now }
{
    count_said(s).min(limits::ITEM_LIMIT)
}

// The check of a sheet: its answer, and the offset and the level of each item read before the first fault. Two arrays, and not one of
// pairs: the memory is lent, the offsets go on as a slice in item::Sheet, and the levels' bytes then serve for the owed bytes.
pub fn check(s: &[u8], offsets: &mut [usize], levels: &mut [u8]) -> Result<Opened, Fault>
    requires { Room s.now offsets.old levels.old }
    ensures answer { checked_meaning result ≡ checked_of (read_sheet s.now) }
    ensures found { offsets.new ≡ over (offsets_of (read_so_far s.now)) offsets.old }
    ensures leveled { levels.new ≡ over (levels_of (read_so_far s.now)) levels.old }
{
    let head = whole_field(s, 0)?;
    let opened = judge_head(head.tag, &s[head.start..head.next])?;
    check_items(s, opened, offsets, levels)
}
