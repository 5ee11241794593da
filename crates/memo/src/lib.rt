// What a pass of look-ups remembers, so that each unstored figure is worked out once in it: a note for each item, in an array that
// is lent by the call.
#![tactic(auto)]

ghost use Rattle.std.specs.Prelude.{◌≡◌, ◌<◌, length};
ghost use Rattle.memo.specs.Memo.{most_generations, pass, note_of, noted, found_by, seen_meaning, recall_meaning, remembered};

use std::marker::Model;
use value::Value;

// What looking up an item gives: its value, and whether it is flagged. (A flag beside the value: the machine's pair, which has a value either way.)
#[derive(Clone, Copy, PartialEq, Eq, Debug)]
pub struct Seen {
    pub value: Value,
    pub flag: bool,
}

// What is remembered of an item: a tag (the generation of the pass, and the value's kind and flag) and the value's number.
// One tag: with a Seen in it a note would take 32 bytes; in 16 its generation would be a u32, cast where Memo's is compared, beside kind and flag.
#[derive(Clone, Copy, PartialEq, Eq, Debug)]
pub struct Note {
    tag: u64,
    number: i64,
}

impl Note {
    // No pass has generation 0.
    pub const NONE: Note = Note { tag: 0, number: 0 };

    fn of(generation: u64, seen: Seen) -> Note
        requires generation_fits { generation < most_generations }
        ensures { result ≡ note_of generation (seen_meaning seen) }
    {
        let value = seen.value;
        let code = 2 * u64::from(value.kind()) + u64::from(seen.flag);
        Note {
            tag: 8 * generation + code,
            number: value.number_or_zero(),
        }
    }

    fn seen(self) -> Seen
        ensures { seen_meaning result ≡ found_by self }
    {
        let code = self.tag % 8;
        Seen {
            // A code is below 8, so the cast loses nothing.
            value: Value::of_parts((code / 2) as u8, self.number),
            flag: code % 2 == 1,
        }
    }
}

// The notes of a pass, whose generation sets it apart from the passes before: only notes of this generation are remembered.
#[derive(Drop)]
pub struct Memo<'a> {
    notes: &'a mut [Note],
    generation: u64,
}

impl<'a> Model for Memo<'a> {
    ghost use Rattle.std.specs.Prelude.{◌<◌};
    ghost use Rattle.memo.specs.Memo.{Pass, pass, most_generations};

    ghost Value = { Pass };

    ghost view = { λ m. pass m.notes.now m.generation };

    // a tag has room for the generation
    ghost invariant = { λ m. m.generation < most_generations };
}

impl<'a> Memo<'a> {
    pub fn new(notes: &'a mut [Note]) -> Memo<'a>
        ensures { result ≡ pass notes.entry.now 1 }
    {
        Memo {
            notes,
            generation: 1,
        }
    }

    // A pass of the generation begins.
    pub fn begin(&mut self, generation: u64)
        requires generation_fits { generation < most_generations }
        ensures { self.new ≡ pass self.old.notes generation }
    {
        self.generation = generation;
    }

    // What is remembered of item i.
    #[tactic(auto, unfolding(crate::specs::Memo::remembered))]
    pub fn recalled(&self, i: usize) -> Option<Seen>
        requires within { i < length self.now.notes }
        ensures { recall_meaning result ≡ remembered self.now i }
    {
        let generation = self.generation;
        let note = self.notes[i];
        if note.tag / 8 != generation {
            return None;
        }
        Some(note.seen())
    }

    // Item i is remembered.
    pub fn remember(&mut self, i: usize, seen: Seen)
        requires within { i < length self.old.notes }
        ensures { self.new ≡ noted self.old i (seen_meaning seen) }
    {
        self.notes[i] = Note::of(self.generation, seen);
    }
}
