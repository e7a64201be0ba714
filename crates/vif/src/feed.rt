// Words of main memory given to a unit one after another.
ghost use Rattle.std.specs.Prelude.{◌≡◌, false, ◌+◌, ◌*◌, ◌^◌, ◌<◌, ◌≤◌, length};
ghost use Rattle.fields.specs.Counts.{no_units, plus_units, Counted};
ghost use Rattle.memories.specs.Lengths.{lent};
ghost use Rattle.vif.specs.Feeds.{fed};
ghost use Rattle.vif.specs.Feed.{fed_on_by, feeds_of, words_inside, takes_steps, feed_of};
ghost use Rattle.vif.specs.Inner.{StepReady, FedReady, fed_in, Gives, taken_with};

use super::WordsResult;
use super::bursts::burst;
use super::codes::take_codes;
use super::step::{in_range, step};
use fields::{UnitCounts, lies_inside, no_units, plus_units};
use gif::Path;
use memories::{VifUnit, test_lengths};
use vif_codes::{Taken, Vif, counts_in, incoming_at};

// Before the first word.
fn nothing_taken(unit: Vif, path2: Path, used: u64) -> WordsResult
    ensures { result ≡ taken_with unit path2 used 0 no_units false }
{
    WordsResult {
        unit,
        path2,
        used,
        words: 0,
        counts: no_units(),
        interrupt: false,
    }
}

// What steps count for with one more, which counts for `more`.
fn one_more(counts: UnitCounts, more: UnitCounts) -> UnitCounts
    requires { Counted counts × Counted more × (counts.steps + more.steps < 2 ^ 64) }
    ensures { result ≡ plus_units counts more }
{
    plus_units(counts, more)
}

// One step more; one that is refused leaves all as it was.
fn give_word(
    which: VifUnit,
    s: WordsResult,
    main: &[u8],
    a: u32,
    data: &mut [u32],
    code: &mut [u8],
    log: &mut [u64],
) -> WordsResult
    requires { FedReady which (fed_in s (lent «data».old code.old log.old))
        × (a + 4 * s.words ≤ 1048576)
        × (s.counts.steps + 1 < 2 ^ 64)
        × Counted s.counts }
    ensures { Gives which main.now a s (lent «data».old code.old log.old)
        result (lent «data».new code.new log.new) }
{
    let next = incoming_at(main, a + 4 * s.words);
    let r = step(which, s.unit, s.path2, next, data, code, log, s.used);
    let counts = one_more(s.counts, counts_in(s.unit.waiting, next, r.answer));
    let Ok(taken) = r.answer else {
        return s;
    };
    let (words, interrupt) = match taken {
        Taken::Word { interrupt } => (1, interrupt),
        Taken::Quadword { interrupt, .. } => (4, interrupt),
    };
    WordsResult {
        unit: r.unit,
        path2: r.path2,
        used: r.used,
        words: s.words + words,
        counts,
        interrupt,
    }
}

// The words, where all was tested.
fn give_words(
    which: VifUnit,
    unit: Vif,
    path2: Path,
    main: &[u8],
    a: u32,
    count: u32,
    limit: u64,
    data: &mut [u32],
    code: &mut [u8],
    log: &mut [u64],
    used: u64,
) -> WordsResult
    requires { StepReady which unit path2 used (lent «data».old code.old log.old) × (a + 4 * count ≤ 1048576) × (a + 4 * count ≤ length main.now) }
    ensures { fed_on_by result (lent «data».new code.new log.new)
        ≡ feeds_of which main.now limit a count
        (fed unit path2 used (lent «data».old code.old log.old)) }
{
    let mut s = nothing_taken(unit, path2, used);
    loop {
        if s.counts.steps >= limit || s.words >= count {
            return s;
        }
        let start = s.counts.steps;
        s = take_codes(which, s, main, a, count, limit, data, code, log);
        if s.counts.steps != start {
            continue;
        }
        s = burst(which, s, main, a, count, limit, log);
        let before = s.counts.steps;
        s = give_word(which, s, main, a, data, code, log);
        if s.interrupt || s.counts.steps == before {
            return s;
        }
    }
}

// The words lie inside, start at a word and end with a quadword.
fn words_inside(main: &[u8], a: u32, count: u32) -> bool
    ensures { result ≡ words_inside main.now a count }
{
    lies_inside(main, a, 4 * count as usize) && a % 4 == 0 && (a / 4 + count) % 4 == 0
}

fn takes_steps(
    which: VifUnit,
    unit: Vif,
    path2: Path,
    data: &[u32],
    code: &[u8],
    log: &[u64],
    used: u64,
) -> bool
    ensures { result
        ≡ takes_steps which (fed unit path2 used (lent «data».now code.now log.now)) }
{
    test_lengths(which, data, code, log, used).is_ok() && in_range(which, unit, path2)
}

// At most `limit` steps with `count` words of main memory from address `a` on, on any input at all.
pub fn take_words(
    which: VifUnit,
    unit: Vif,
    path2: Path,
    main: &[u8],
    a: u32,
    count: u32,
    limit: u64,
    data: &mut [u32],
    code: &mut [u8],
    log: &mut [u64],
    used: u64,
) -> WordsResult
    ensures { fed_on_by result (lent «data».new code.new log.new)
        ≡ feed_of which main.now limit a count
        (fed unit path2 used (lent «data».old code.old log.old)) }
{
    if words_inside(main, a, count) && takes_steps(which, unit, path2, data, code, log, used) {
        give_words(
            which, unit, path2, main, a, count, limit, data, code, log, used,
        )
    } else {
        nothing_taken(unit, path2, used)
    }
}
