// The numbers that memories hold: the bytes of code memory, the words of data memory and the 64-bit numbers of a log.
ghost use Rattle.std.specs.Prelude.{◌≡◌, ℕ, ◌+◌, ◌*◌, ◌%◌, ◌^◌, ◌≤◌, List, length, get_or, slice_index};
ghost use Rattle.std.proofs.Common.{refl};
ghost use Rattle.wire.specs.Words.{one, two, sent_all};
ghost use Rattle.cases.specs.Memories.{byte_word, low_wraps};
ghost use Rattle.cases.specs.Changes.{number_in, words_in};

use super::whole::byte_word;
use wire::Output;

// What a memory is made of.
pub trait Number: Copy {
    // The number with the low bits of another, as many as it has, and the number itself.
    ghost low: { ℕ → Self };

    ghost wide: { Self → ℕ };

    fn low(x: u64) -> Self
        ensures { result ≡ low x };

    fn wide(self) -> u64
        ensures { result ≡ wide self };

    // What is above 2 ^ 64 leaves the low bits as they are.
    ghost wraps: { (x : ℕ) → low (x % 2 ^ 64) ≡ low x };
}

impl Number for u8 {
    ghost low = { λ x. x % 2 ^ 8 };

    ghost wide = { λ x. x };

    ghost wraps = { low_wraps (2 ^ 8) refl };

    fn low(x: u64) -> u8 {
        (x % 256) as u8
    }

    fn wide(self) -> u64 {
        u64::from(self)
    }
}

impl Number for u32 {
    ghost low = { λ x. x % 2 ^ 32 };

    ghost wide = { λ x. x };

    ghost wraps = { low_wraps (2 ^ 32) refl };

    fn low(x: u64) -> u32 {
        wire::low_word(x)
    }

    fn wide(self) -> u64 {
        u64::from(self)
    }
}

impl Number for u64 {
    ghost low = { λ x. x % 2 ^ 64 };

    ghost wide = { λ x. x };

    ghost wraps = { low_wraps (2 ^ 64) refl };

    fn low(x: u64) -> u64 {
        x
    }

    fn wide(self) -> u64 {
        self
    }
}

// A memory's number, 0 beyond its end.
pub(crate) fn number_in<T: Number>(memory: &[T], i: usize) -> T
    ensures { result ≡ get_or memory.now i (T.low 0) }
{
    memory.get(i).copied().unwrap_or(T::low(0))
}

// How results show a memory: as so many numbers, each of one or two words. A byte memory shows as 32-bit words.
pub trait Shown: Number {
    ghost count: { List Self → ℕ };

    ghost number: { List Self → ℕ → ℕ };

    ghost words: { ℕ → List ℕ };

    fn count(memory: &[Self]) -> usize
        ensures value { result ≡ count memory.now }
        ensures small { 4 * result ≤ 2 ^ 64 };

    // Number i, 0 beyond the memory's end.
    fn number(memory: &[Self], i: usize) -> u64
        ensures { result ≡ number memory.now i };

    // Puts number i's words into the results.
    fn emit(memory: &[Self], i: usize, out: &mut Output)
        ensures { out.new ≡ sent_all out.old.out out.old.at (words (number memory.now i)) };
}

impl Shown for u32 {
    ghost count = { length };

    ghost number = { number_in };

    ghost words = { one };

    fn count(memory: &[u32]) -> usize {
        memory.len()
    }

    fn number(memory: &[u32], i: usize) -> u64 {
        u64::from(number_in(memory, i))
    }

    fn emit(memory: &[u32], i: usize, out: &mut Output) {
        out.emit(number_in(memory, i));
    }
}

// Word i of a byte memory, 0 beyond its end.
fn word_in(memory: &[u8], i: usize) -> u32
    ensures { result ≡ byte_word memory.now i }
{
    if i < memory.len().div_ceil(4) {
        byte_word(memory, i)
    } else {
        0
    }
}

impl Shown for u8 {
    ghost count = { words_in };

    ghost number = { byte_word };

    ghost words = { one };

    fn count(memory: &[u8]) -> usize {
        memory.len().div_ceil(4)
    }

    fn number(memory: &[u8], i: usize) -> u64 {
        u64::from(word_in(memory, i))
    }

    fn emit(memory: &[u8], i: usize, out: &mut Output) {
        out.emit(word_in(memory, i));
    }
}

impl Shown for u64 {
    ghost count = { length };

    ghost number = { number_in };

    ghost words = { two };

    fn count(memory: &[u64]) -> usize {
        memory.len()
    }

    fn number(memory: &[u64], i: usize) -> u64 {
        number_in(memory, i)
    }

    fn emit(memory: &[u64], i: usize, out: &mut Output) {
        out.emit(number_in(memory, i));
    }
}
