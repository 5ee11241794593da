// The fields of a day log.
#![tactic(auto)]

ghost use Rattle.std.specs.Prelude.{◌≡◌};
ghost use Rattle.day_meaning.specs.Orders.{kind_allowed, order_of, post_in};
ghost use Rattle.day_order.specs.Orders.{order_in, Reads};

use cause::Cause;
use field::NoField;

// The tags of the fields. (Numbers, and no enum: any byte may stand there, and is judged.)
const POST_TAG: u8 = 16;

const ASK_TAG: u8 = 17;

const KEEP_TAG: u8 = 18;

const DROP_TAG: u8 = 19;

const STEP_TAG: u8 = 20;

// The length of a post's content, and of another call's.
const POST_LENGTH: usize = 11;

const CALL_LENGTH: usize = 2;

// Where the parts of a content stand.
const ITEM_AT: usize = 0;

const KIND_AT: usize = 2;

const NUMBER_AT: usize = 3;

// A call that a field orders. (A post's kind and number are no Value: a number beyond the range is in form here, and it is the call that
// refuses it, with 13.)
#[derive(Clone, Copy, PartialEq, Eq, Debug)]
pub enum Order {
    Post { item: u64, kind: u64, number: i64 },
    Ask(u64),
    Keep(u64),
    Drop(u64),
    Step(u64),
}

// An order, and the offset of the field after its own.
#[derive(Clone, Copy, PartialEq, Eq, Debug)]
pub struct Placed {
    pub order: Order,
    pub next: usize,
}

// Whether a post may have the kind and the number: kind 1 with number 0, or kind 3.
fn kind_allowed(kind: u8, number: i64) -> bool
    ensures { result ≡ kind_allowed kind number }
{
    match kind {
        1 => number == 0,
        3 => true,
        _ => false,
    }
}

// The post of a content, if it is one.
fn post_in(content: &[u8]) -> Option<Order>
    ensures { order_in result ≡ post_in content.now }
{
    if content.len() != POST_LENGTH {
        return None;
    }
    // by `as`, since u64 has no From of a usize
    let item = field::u16_at(content, ITEM_AT) as u64;
    let kind = content[KIND_AT];
    let number = word::read_i64(content, NUMBER_AT);
    // (By if and else: with then_some the case that is refused would stand nowhere in the text.)
    if kind_allowed(kind, number) {
        Some(Order::Post {
            item,
            kind: u64::from(kind),
            number,
        })
    } else {
        None
    }
}

// The order of a field, by its tag and content; none is a fault.
pub fn order_of(tag: u8, content: &[u8]) -> Option<Order>
    ensures { order_in result ≡ order_of tag content.now }
{
    if tag == POST_TAG {
        return post_in(content);
    }
    if content.len() != CALL_LENGTH {
        return None;
    }
    let item = field::u16_at(content, ITEM_AT) as u64;
    match tag {
        ASK_TAG => Some(Order::Ask(item)),
        KEEP_TAG => Some(Order::Keep(item)),
        DROP_TAG => Some(Order::Drop(item)),
        STEP_TAG => Some(Order::Step(item)),
        _ => None,
    }
}

// The order at an offset of a day log; none at the log's end. A field that runs past the end, or orders nothing, is a fault.
pub fn order_at(log: &[u8], at: usize) -> Result<Option<Placed>, Cause>
    ensures { Reads log.now at result }
{
    match field::field_at(log, at) {
        Err(NoField::Absent) => Ok(None),
        Err(NoField::Short) => Err(Cause::DayField),
        Ok(field) => {
            let next = field.next;
            let order = order_of(field.tag, &log[field.start..next]).ok_or(Cause::DayField)?;
            Ok(Some(Placed { order, next }))
        }
    }
}
