// A sheet that opens with the offsets of its fields, its items read from these fields, and the index.
// A field is a tag, two length bytes and its content. A figure's content is rule, keep, spread and parent count, two bytes
// a parent, and the name.
#![tactic(auto)]

ghost use Rattle.std.specs.Prelude.{◌≡◌, true, ◌<◌, ◌≤◌, ◌+◌, ◌*◌, ◌%◌, length, get_or};
ghost use Rattle.circuit.specs.Sheet as circuit;
ghost use Rattle.circuit.specs.WellFormed.{all_well_formed};
ghost use Rattle.value.specs.Meaning.{meanings};
ghost use Rattle.item.specs.Item.{kind_meaning, spread_meaning, OperationRead, Evaluated, CountRead};
ghost use Rattle.item.specs.Offsets.{offset_bytes, same_bytes, four_at, put_offset};
ghost use Rattle.layout.specs.Layout.{index_width};
ghost use Rattle.layout.specs.Opened.{sheet_of, Located};
ghost use Rattle.layout.specs.Index.{bytes32};

use limits::{FIGURE_TAG, INDEX_WIDTH, PARENT_WIDTH};
use std::marker::Model;
use value::Value;

#[derive(Clone, Copy, PartialEq, Eq, Debug)]
pub enum Kind {
    Entry,
    Figure,
}

// What a stored figure does when a parent's change is told.
#[derive(Clone, Copy, PartialEq, Eq, Debug)]
pub enum Spread {
    Defer,
    Renew,
}

// Where a figure's parts stand, from the offset of its field.
const RULE_AT: usize = field::HEADER_LENGTH + limits::RULE_AT;

const KEEP_AT: usize = field::HEADER_LENGTH + limits::KEEP_AT;

const SPREAD_AT: usize = field::HEADER_LENGTH + limits::SPREAD_AT;

const PARENT_COUNT_AT: usize = field::HEADER_LENGTH + limits::PARENT_COUNT_AT;

const PARENTS_AT: usize = field::HEADER_LENGTH + limits::PARENTS_AT;

// The bytes of a sheet, with the offset of each item's field.
#[derive(Drop)]
pub struct Sheet<'a> {
    bytes: &'a [u8],
    offsets: &'a [usize],
}

impl<'a> Model for Sheet<'a> {
    ghost use Rattle.std.specs.Prelude.{List, ℕ};
    ghost use Rattle.item.specs.Located.{FieldsAt};

    ghost Value = { List ℕ };

    ghost view = { λ s. s.bytes.now };

    ghost invariant = { λ s. FieldsAt s.bytes.now s.offsets.now };
}

impl<'a> Sheet<'a> {
    pub fn new(bytes: &'a [u8], offsets: &'a [usize]) -> Sheet<'a>
        requires located { Located bytes.now offsets.now }
        requires counted { length offsets.now ≡ circuit.size (sheet_of bytes.now) }
        ensures { result ≡ bytes.now }
    {
        Sheet { bytes, offsets }
    }

    // How many items the sheet has.
    pub fn len(&self) -> usize
        ensures { result ≡ circuit.size (sheet_of self.now) }
    {
        self.offsets.len()
    }

    // (An item's number is a usize, held below the size by each contract: a type for it would borrow the sheet once more.)
    pub fn item(&self, i: usize) -> Item<'a>
        requires { i < circuit.size (sheet_of self.now) }
        ensures { result ≡ circuit.item_at (sheet_of self.now) i }
    {
        Item {
            bytes: self.bytes,
            at: self.offsets[i],
        }
    }
}

// An item: the sheet's bytes, and the offset of its field.
#[derive(Drop)]
pub struct Item<'a> {
    bytes: &'a [u8],
    at: usize,
}

impl<'a> Model for Item<'a> {
    ghost use Rattle.circuit.specs.Sheet as circuit;
    ghost use Rattle.item.specs.Item.{ItemField, field_item};

    ghost Value = { circuit.Item };

    ghost view = { λ i. field_item i.bytes.now i.at };

    ghost invariant = { λ i. ItemField i.bytes.now i.at };
}

impl<'a> Item<'a> {
    pub fn is_figure(&self) -> bool
        ensures { result ≡ circuit.is_figure self.now }
    {
        self.kind() == Kind::Figure
    }

    pub fn kind(&self) -> Kind
        ensures { kind_meaning result ≡ circuit.is_figure self.now }
    {
        if self.bytes[self.at] == FIGURE_TAG {
            Kind::Figure
        } else {
            Kind::Entry
        }
    }

    // Keep 1 and spread 1 are the codes that a sheet's bytes have; each code is read in one place only.
    pub fn is_kept(&self) -> bool
        ensures { result ≡ circuit.kept_of self.now }
    {
        self.is_figure() && self.bytes[self.at + KEEP_AT] == 1
    }

    pub fn spread(&self) -> Spread
        ensures { spread_meaning result ≡ circuit.spread_of self.now }
    {
        if self.is_figure() {
            match self.bytes[self.at + SPREAD_AT] {
                1 => Spread::Renew,
                _ => Spread::Defer,
            }
        } else {
            Spread::Defer
        }
    }

    // 0 for an entry.
    pub fn parent_count(&self) -> usize
        ensures { CountRead self.now result }
    {
        if self.is_figure() {
            usize::from(self.bytes[self.at + PARENT_COUNT_AT])
        } else {
            0
        }
    }

    // The parents are read by their places, and not as an iterator: one of our own would need its own proofs of what it yields, and a caller
    // would be no plainer.
    pub fn parent(&self, k: usize) -> usize
        requires { k < length (circuit.parents_of self.now) }
        ensures { result ≡ get_or (circuit.parents_of self.now) k 0 }
    {
        field::u16_at(self.bytes, self.at + PARENTS_AT + PARENT_WIDTH * k)
    }

    // A figure's operation.
    fn operation(&self) -> rules::Operation
        requires { circuit.is_figure self.now ≡ true }
        ensures { OperationRead self.now result }
    {
        rules::operation_of(self.bytes[self.at + RULE_AT], self.parent_count()).unwrap()
    }

    // A figure's value: its rule applied to the values of its parents, in their listed order.
    pub fn evaluate(&self, values: &[Value]) -> Value
        requires figure { circuit.is_figure self.now ≡ true }
        requires counted { length values.now ≡ length (circuit.parents_of self.now) }
        requires formed { all_well_formed (meanings values.now) ≡ true }
        ensures { Evaluated self.now (meanings values.now) result }
    {
        rules::apply(self.operation(), values)
    }
}

// The 32 low bits of an offset, which the index has. The remainder comes before the cast, since a cast loses nothing.
fn low_part(offset: usize) -> u32
    ensures { result ≡ offset % 4294967296 }
{
    (offset % 4294967296) as u32
}

// An offset in four bytes, the low one first.
// (At a place of the whole, and not on a part: the contract says that no other byte changes.)
fn put_offset(index: &mut [u8], at: usize, offset: usize)
    requires { at + index_width ≤ length index.old }
    ensures { index.new ≡ put_offset index.old at offset }
{
    index[at..at + INDEX_WIDTH].copy_from_slice(&low_part(offset).to_le_bytes());
}

// The index of these offsets. Entry by entry at its place: std says nothing of what a slice holds after a loop over chunks_exact_mut.
pub fn write_index(offsets: &[usize], index: &mut [u8])
    requires { length index.old ≡ index_width * length offsets.now }
    ensures { index.new ≡ offset_bytes offsets.now }
{
    for (k, offset) in offsets.iter().enumerate() {
        put_offset(index, INDEX_WIDTH * k, *offset);
    }
}

// Whether the four bytes are those of an offset.
fn is_offset(index: &[u8], at: usize, offset: usize) -> bool
    requires { at + index_width ≤ length index.now }
    ensures { result ≡ same_bytes (four_at index.now at) (bytes32 offset) }
{
    let entry = [index[at], index[at + 1], index[at + 2], index[at + 3]];
    u32::from_le_bytes(entry) == low_part(offset)
}

// Whether the index is that of these offsets.
pub fn index_matches(offsets: &[usize], index: &[u8]) -> bool
    requires { length index.now ≡ index_width * length offsets.now }
    ensures { result ≡ same_bytes index.now (offset_bytes offsets.now) }
{
    (0..offsets.len()).all(|k| is_offset(index, INDEX_WIDTH * k, offsets[k]))
}
