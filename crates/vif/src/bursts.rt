// Payload of DIRECT and DIRECTHL, taken at once: never the last quadword due, so that no burst completes a code.
ghost use Rattle.std.specs.Prelude.{◌≡◌, true, List, ℕ, ◌+◌, ◌*◌, ◌-◌, ◌%◌, ◌^◌, ◌<◌, ◌≤◌};
ghost use Rattle.fields.specs.Counts.{quadwords_alone, plus_units, Counted};
ghost use Rattle.memories.specs.Units.{quadwords};
ghost use Rattle.memories.specs.Lengths.{lent};
ghost use Rattle.vif_codes.specs.declared.Waiting.TheVariants.{MpgDue, UnpackDue};
ghost use Rattle.vif_codes.specs.Setters.{with_waiting};
ghost use Rattle.vif_codes.specs.Range.{unit_in_range};
ghost use Rattle.vif.specs.Inner.{Quadwords, Going, Bursts, taken_with};

use super::WordsResult;
use fields::{plus_units, quadwords_alone};
use gif::{GifPath, QuadwordsResult};
use memories::VifUnit;
use vif_codes::Waiting;

// How many units of payload are taken at once, where so many are due and so many words and steps are left.
fn at_once(due: u32, words: u32, steps: u64) -> u32
    requires { (1 ≤ due) × (1 ≤ words) × (1 ≤ steps) }
    ensures { (result < due) × (result < words) × (result < steps) }
{
    (due.min(words) as u64).min(steps) as u32 - 1
}

fn quadwords_at_once(due: u32, a: u32, words: u32, steps: u64) -> u32
    requires { (1 ≤ due) × (1 ≤ words) × (words ≤ 1048576) × (1 ≤ steps) }
    ensures { (result < due) × (4 * result < words) × (result < steps) × ((result ≡ 0 → ⊥) → a % 16 ≡ 0) }
{
    if a % 16 != 0 {
        return 0;
    }
    at_once(due, (words + 3) / 4, steps)
}

// Quadwords of DIRECT or DIRECTHL, up to the first that path 2 refuses.
fn quadwords(
    s: WordsResult,
    due: u32,
    main: &[u8],
    a: u32,
    count: u32,
    limit: u64,
    log: &mut [u64],
) -> QuadwordsResult
    requires { (1 ≤ due) × Going limit a count s }
    ensures { Quadwords main.now (a + 4 * s.words) due (count - s.words) (limit - s.counts.steps)
        s.path2 s.used log.old result log.new }
{
    let at = a + 4 * s.words;
    let n = quadwords_at_once(due, at, count - s.words, limit - s.counts.steps);
    gif::take_quadwords(GifPath::Two, s.path2, main, at, n, log, s.used)
}

// The result of s with quadwords after it; `rest` is what waits then.
fn with_quadwords(s: WordsResult, r: QuadwordsResult, rest: Waiting) -> WordsResult
    requires { (s.words + 4 * r.taken < 2 ^ 32) × (s.counts.steps + r.taken < 2 ^ 64) × Counted s.counts × (r.packets ≤ r.taken) }
    ensures { result
        ≡ taken_with (with_waiting s.unit rest) r.path r.used (s.words + 4 * r.taken) (plus_units s.counts (quadwords_alone r.taken r.packets)) s.interrupt }
{
    WordsResult {
        unit: s.unit.with_waiting(rest),
        path2: r.path,
        used: r.used,
        words: s.words + 4 * r.taken,
        counts: plus_units(s.counts, quadwords_alone(r.taken as u64, r.packets)),
        ..s
    }
}

// Quadwords of a DIRECT that waits; at least one word and one step are left after them.
pub(crate) fn burst(
    which: VifUnit,
    s: WordsResult,
    main: &[u8],
    a: u32,
    count: u32,
    limit: u64,
    log: &mut [u64],
) -> WordsResult
    requires { (unit_in_range which s.unit ≡ true) × Going limit a count s }
    ensures { (mem code : List ℕ)
        → Bursts which main.now limit a count s (lent mem code log.old) result (lent mem code log.new) }
{
    match s.unit.waiting {
        Waiting::DirectDue { due, interrupt } => {
            let r = quadwords(s, due, main, a, count, limit, log);
            let rest = Waiting::DirectDue {
                due: due - r.taken,
                interrupt,
            };
            with_quadwords(s, r, rest)
        }
        Waiting::DirecthlDue { due, interrupt } => {
            let r = quadwords(s, due, main, a, count, limit, log);
            let rest = Waiting::DirecthlDue {
                due: due - r.taken,
                interrupt,
            };
            with_quadwords(s, r, rest)
        }
        _ => s,
    }
}
