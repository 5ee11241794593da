// The tags, places and limits of the layout, each once. The contracts hold the limits to those of the definitions.
// A tag, an edition, a keep and a spread are numbers here, and no enums: what is judged may be any number, and each contract holds for all of them
// (item gives the spread of an item as an enum).
#![tactic(auto)]

ghost use Rattle.std.specs.Prelude.{◌≡◌};
ghost use Rattle.layout.specs.Layout.{edition_known, item_limit, count_allowed, keep_allowed, spread_limit, spread_allowed, name_byte};

pub const HEAD_TAG: u8 = 1;

pub const ENTRY_TAG: u8 = 2;

pub const FIGURE_TAG: u8 = 3;

pub const LAST_TAG: u8 = 4;

// The first field's content: its length, and where the item count stands after the edition.
pub const HEAD_LENGTH: usize = 4;

pub const COUNT_AT: usize = 2;

// The offset after the first field.
pub const HEAD_NEXT: usize = field::HEADER_LENGTH + HEAD_LENGTH;

// A figure's content: where each part stands, and a parent's width.
pub const RULE_AT: usize = 0;

pub const KEEP_AT: usize = 1;

pub const SPREAD_AT: usize = 2;

pub const PARENT_COUNT_AT: usize = 3;

pub const PARENTS_AT: usize = 4;

pub const PARENT_WIDTH: usize = 2;

// The bytes of an index entry.
pub const INDEX_WIDTH: usize = 4;

// The most items of a sheet: of edition 1, and of edition 2, which is the most of any.
const ITEM_LIMIT_1: usize = 1024;

pub const ITEM_LIMIT: usize = 4096;

pub const LEVEL_LIMIT: usize = 64;

pub const NAME_LIMIT: usize = 16;

const FIRST_NAME_BYTE: u8 = 33;

const LAST_NAME_BYTE: u8 = 126;

pub fn name_byte(b: u8) -> bool
    ensures { result ≡ name_byte b }
{
    (FIRST_NAME_BYTE..=LAST_NAME_BYTE).contains(&b)
}

#[tactic(auto, unfolding(layout::specs::Layout::edition_known))]
pub fn edition_known(edition: usize) -> bool
    ensures { result ≡ edition_known edition }
{
    edition == 1 || edition == 2
}

// The most items of a sheet of an edition.
#[tactic(auto, unfolding(layout::specs::Layout::item_limit))]
pub fn item_limit(edition: usize) -> usize
    ensures { result ≡ item_limit edition }
{
    if edition == 1 {
        ITEM_LIMIT_1
    } else {
        ITEM_LIMIT
    }
}

#[tactic(auto, unfolding(layout::specs::Layout::count_allowed))]
pub fn count_allowed(edition: usize, n: usize) -> bool
    ensures { result ≡ count_allowed edition n }
{
    (1..=item_limit(edition)).contains(&n)
}

#[tactic(auto, unfolding(layout::specs::Layout::keep_allowed))]
pub fn keep_allowed(keep: u8) -> bool
    ensures { result ≡ keep_allowed keep }
{
    keep <= 1
}

// The highest spread of an edition: 0 is defer, 1 renew, and 2 is retired in edition 2.
#[tactic(auto, unfolding(layout::specs::Layout::spread_limit))]
fn spread_limit(edition: usize) -> u8
    ensures { result ≡ spread_limit edition }
{
    if edition == 2 { 1 } else { 2 }
}

#[tactic(auto, unfolding(layout::specs::Layout::spread_allowed))]
pub fn spread_allowed(edition: usize, spread: u8) -> bool
    ensures { result ≡ spread_allowed edition spread }
{
    spread <= spread_limit(edition)
}
