// The calls of a case, group by group.
use cases::{Memories, words_at};
use fields::Refusal;
use gif::Path;
use memories::VifUnit;
use state_block::{
    PATH_WORDS, UNIT_WORDS, path_block, path_given, path_in_block, unit_block, unit_given,
    unit_in_block,
};
use vif_codes::{Incoming, Taken, Vif};
use wire::{Output, long_at, word_at};

// A unit and its path as blocks.
#[derive(Clone, Copy)]
struct Blocks {
    unit: [u32; UNIT_WORDS],
    path: [u32; PATH_WORDS],
}

impl Blocks {
    fn of(unit: Vif, path: Path) -> Blocks {
        Blocks {
            unit: unit_block(unit),
            path: path_block(path),
        }
    }

    fn known(&self) -> bool {
        unit_in_block(&self.unit).is_some() && path_in_block(&self.path).is_some()
    }
}

// What is given to the next call: the words that are left, and the next one's number in its quadword; and the case's blocks, with whether they are a unit's and a path's.
#[derive(Clone, Copy)]
pub(crate) struct Running<'a> {
    which: VifUnit,
    words: &'a [u32],
    number: u32,
    unit: Vif,
    path: Path,
    used: u64,
    given: Blocks,
    known: bool,
}

// A word that is left.
fn nth(words: &[u32], i: usize) -> u32 {
    words.get(i).copied().unwrap_or(0)
}

// The next word, with its number in its quadword.
fn incoming(words: &[u32], number: u32) -> Incoming {
    let word = nth(words, 0);
    match number % 4 {
        0 => Incoming::Word0(word, nth(words, 1), nth(words, 2), nth(words, 3)),
        1 => Incoming::Word1(word),
        2 => Incoming::Word2(word),
        _ => Incoming::Word3(word),
    }
}

fn flag(set: bool, value: u32) -> u32 {
    if set { value } else { 0 }
}

fn answer_word(answer: Result<Taken, Refusal>) -> u32 {
    match answer {
        Ok(Taken::Word { interrupt }) => flag(interrupt, 256),
        Ok(Taken::Quadword { interrupt, closed }) => 1 | flag(interrupt, 256) | flag(closed, 512),
        Err(refusal) => refusal.number().wrapping_add(65536),
    }
}

// The words that a call took; a refused one is passed over.
fn passed(answer: Result<Taken, Refusal>) -> u32 {
    match answer {
        Ok(Taken::Quadword { .. }) => 4,
        _ => 1,
    }
}

impl<'a> Running<'a> {
    // What a case starts from. Blocks that are no unit's or no path's stand for what is out of range.
    pub(crate) fn new(header: &[u8], words: &'a [u32]) -> Running<'a> {
        let given = Blocks {
            unit: words_at(header, 32),
            path: words_at(header, 160),
        };
        Running {
            which: match word_at(header, 208) {
                0 => VifUnit::Vif0,
                _ => VifUnit::Vif1,
            },
            words,
            number: word_at(header, 196),
            unit: unit_given(&given.unit),
            path: path_given(&given.path),
            used: long_at(header, 16),
            given,
            known: given.known(),
        }
    }

    fn take(&mut self, out: &mut Output, memories: &mut Memories<'_>) {
        let next = incoming(self.words, self.number);
        let r = vif::take(
            self.which,
            self.unit,
            self.path,
            next,
            memories.data,
            memories.code,
            memories.log,
            self.used,
        );
        let taken = passed(r.answer);
        out.emit(answer_word(r.answer));
        self.words = self.words.get(taken as usize..).unwrap_or(&[]);
        self.number = self.number.wrapping_add(taken);
        self.unit = r.unit;
        self.path = r.path2;
        self.used = r.used;
    }

    // The calls of one group, or those before the words' end.
    pub(crate) fn take_group(&mut self, out: &mut Output, count: u32, memories: &mut Memories<'_>) {
        for _ in 0..count {
            if self.words.is_empty() {
                break;
            }
            self.take(out, memories);
        }
    }

    // Puts the entries used and the blocks into the results; blocks that are no unit's or no path's as they were given.
    pub(crate) fn tell(&self, out: &mut Output) {
        let blocks = if self.known {
            Blocks::of(self.unit, self.path)
        } else {
            self.given
        };
        out.emit(u32::MAX);
        out.emit(self.used);
        out.emit_all(&blocks.unit);
        out.emit_all(&blocks.path);
    }

    // The unit and the path, read back from their blocks.
    pub(crate) fn read_back(&mut self) {
        let blocks = Blocks::of(self.unit, self.path);
        self.unit = unit_given(&blocks.unit);
        self.path = path_given(&blocks.path);
    }
}
