// Definitions and laws: fields of numbers, the choice by a test, numbers in main memory, and blocks of words put together of parts.
#![tactic(auto)]

mod counting;
mod memory;
mod refusals;

ghost use Rattle.std.specs.Prelude.{◌≡◌};
ghost use Rattle.fields.specs.Parts.{with_words};

pub use counting::{
    count_numbers, no_counts, no_units, of_unit, one_if, one_quadword, one_tag, one_word, plus,
    plus_units, quadwords_alone, words_alone,
};
pub use memory::{MAIN_MOST, lies_inside, long_at, word_at};
pub use refusals::{ALLOWANCE_USED, BUFFER_SHORT, INTERRUPT_MET, Refusal};

// Sums of QWC, by tag ID: eight fields and no array, since the definitions of specs/Counts.antt and those of crates above name each.
#[derive(Clone, Copy)]
pub struct Qwc {
    pub id0: u64,
    pub id1: u64,
    pub id2: u64,
    pub id3: u64,
    pub id4: u64,
    pub id5: u64,
    pub id6: u64,
    pub id7: u64,
}

// What is counted over completed steps: the steps, the packets closed, the VIF words taken, the NOPs among them, and QWC of the tags read.
#[derive(Clone, Copy)]
pub struct Counts {
    pub steps: u64,
    pub packets: u64,
    pub words: u64,
    pub nops: u64,
    pub qwc: Qwc,
}

// Of steps that read no tag.
#[derive(Clone, Copy)]
pub struct UnitCounts {
    pub steps: u64,
    pub packets: u64,
    pub words: u64,
    pub nops: u64,
}

// Stores the words one after another from `at` on; those past the block's end are dropped.
pub fn put_words(block: &mut [u32], at: usize, words: &[u32])
    ensures { block.new ≡ with_words block.old at words.now }
{
    if at < block.len() {
        let n = words.len().min(block.len() - at);
        block[at..at + n].copy_from_slice(&words[..n]);
    }
}
