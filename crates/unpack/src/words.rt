// Payload words of an UNPACK taken at once, from main memory.
ghost use Rattle.std.specs.Prelude.{◌≡◌, ◌+◌, ◌-◌, ◌%◌, ◌≤◌, ◌<◌};
ghost use Rattle.unpack_rules.specs.Payload.{elements};
ghost use Rattle.unpack_rules.specs.Write.{written};
ghost use Rattle.unpack_rules.specs.Range.{CycleFits, UnpackingFits};
ghost use Rattle.unpack_rules.specs.Inner.{MemoryFits};
ghost use Rattle.unpack_rules.specs.Step.{holds};
ghost use Rattle.unpack_rules.specs.Whole.{words_from, taken_by, words_left, words_acceptable, take_words_of};

use super::payload::{payload_words, whole_vectors};
use super::short::{goes_short, has_vectors, skip, take_all};
use super::step::{acceptable_input, write_completed};
use super::vectors::take_vectors;
use fields::{MAIN_MOST, word_at};
use unpack_rules::{Format, Registers, Unpacking, WordsTaken, vectors_before};

// An UNPACK that waits on, with one payload word more held.
pub fn held(u: Unpacking, word: u32) -> Unpacking
    ensures { result ≡ holds u word }
{
    Unpacking {
        due: u.due.saturating_sub(1),
        first: u.second,
        second: u.third,
        third: word,
        ..u
    }
}

// The next n payload words, where all was tested.
fn take_each(
    size: u32,
    f: Format,
    u: Unpacking,
    r: Registers,
    main: &[u8],
    a: u32,
    n: u32,
    row: [u32; 4],
    data: &mut [u32],
) -> WordsTaken
    requires { CycleFits r.cl r.wl × UnpackingFits f r.cl r.wl u × MemoryFits size «data».old × (a ≤ 1048576) × (n < u.due) }
    ensures { words_left u row (Some result) «data».new
        ≡ taken_by size f u r (words_from main.now a n) (written row «data».old) }
{
    let vectors = vectors_before(r.cl, r.wl, u.count);
    let taken = payload_words(f, vectors) - u.due;
    let mut from = whole_vectors(f, vectors, taken);
    let mut rows = row;
    let mut rest = u;
    for k in 0..n {
        let word = word_at(main, a + 4 * k);
        let to = whole_vectors(f, vectors, taken + k + 1);
        if from != to {
            let next = write_completed(size, f, rest, r, word, taken + k, from, to, rows, data);
            rows = next;
        }
        rest = held(rest, word);
        from = to;
    }
    WordsTaken { row: rows, rest }
}

// The words up to one with which a vector begins, after k words: as many words as a vector has elements hold whole vectors.
fn words_before(f: Format, k: u32) -> u32
    ensures { ((k + result) % elements f ≡ 0) × (result < 4) }
{
    let n = f.elements();
    let over = k % n;
    if over == 0 { 0 } else { n - over }
}

// The next n payload words, often none, where all was tested.
fn take_few(
    size: u32,
    f: Format,
    u: Unpacking,
    r: Registers,
    main: &[u8],
    a: u32,
    n: u32,
    row: [u32; 4],
    data: &mut [u32],
) -> WordsTaken
    requires { CycleFits r.cl r.wl × UnpackingFits f r.cl r.wl u × MemoryFits size «data».old × (a ≤ 1048576) × (n < u.due) }
    ensures { words_left u row (Some result) «data».new
        ≡ taken_by size f u r (words_from main.now a n) (written row «data».old) }
{
    if n == 0 {
        return WordsTaken { row, rest: u };
    }
    take_each(size, f, u, r, main, a, n, row, data)
}

// The next n payload words, where all was tested: from a word on with which a vector begins, all vectors at once.
fn take_most(
    size: u32,
    f: Format,
    u: Unpacking,
    r: Registers,
    main: &[u8],
    a: u32,
    n: u32,
    row: [u32; 4],
    data: &mut [u32],
) -> WordsTaken
    requires { CycleFits r.cl r.wl × UnpackingFits f r.cl r.wl u × MemoryFits size «data».old × (a ≤ 1048576) × (n < u.due) }
    ensures { words_left u row (Some result) «data».new
        ≡ taken_by size f u r (words_from main.now a n) (written row «data».old) }
{
    let vectors = vectors_before(r.cl, r.wl, u.count);
    let lead = words_before(f, payload_words(f, vectors) - u.due);
    if has_vectors(main, a, lead, n + 1) {
        let WordsTaken { row, rest } = take_few(size, f, u, r, main, a, lead, row, data);
        let at = a as usize + 4 * lead as usize;
        return WordsTaken {
            row: take_vectors(size, f, rest, r, main, at, n - lead, row, data),
            rest: skip(rest, n - lead, main, a as usize + 4 * n as usize),
        };
    }
    take_each(size, f, u, r, main, a, n, row, data)
}

// The next n payload words of an UNPACK, not its last, which lie in main memory from an address on, on any input at all.
pub fn take_words(
    size: u32,
    f: Format,
    u: Unpacking,
    r: Registers,
    main: &[u8],
    a: u32,
    n: u32,
    row: [u32; 4],
    data: &mut [u32],
) -> Option<WordsTaken>
    ensures { words_left u row result «data».new ≡ take_words_of size f u r main.now a n row «data».old }
{
    if words_acceptable(size, f, u, r, a, n, data) {
        if goes_short(f, u, r) {
            let rest = take_all(size, u, r, main, a, n, data);
            return Some(WordsTaken { row, rest });
        }
        Some(take_most(size, f, u, r, main, a, n, row, data))
    } else {
        None
    }
}

#[tactic(auto, unfolding(unpack_rules::specs::Whole::words_acceptable))]
fn words_acceptable(
    size: u32,
    f: Format,
    u: Unpacking,
    r: Registers,
    a: u32,
    n: u32,
    data: &[u32],
) -> bool
    ensures { result ≡ words_acceptable size f u r a n «data».now }
{
    a as usize <= MAIN_MOST && n < u.due && acceptable_input(size, f, u, r, data)
}
