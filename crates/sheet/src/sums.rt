// Sums over records: quadwords of the chain, steps and log entries, each counted up to 1,048,576.
ghost use Rattle.std.specs.Prelude.{◌≡◌, ◌+◌, ◌*◌};
ghost use Rattle.sheet.specs.Sizes.{record_quadwords, record_steps, entries_of};
ghost use Rattle.sheet.specs.Sums.{capped, capped_totals, joined, scaled};

use super::{Kind, LONGEST_CHAIN};

#[derive(Debug, Clone, Copy, PartialEq, Eq)]
pub struct Totals {
    pub quadwords: u64,
    pub steps: u64,
    pub entries: u64,
}

fn least(n: u64) -> u64
    ensures { result ≡ capped n }
{
    n.min(LONGEST_CHAIN)
}

fn plus(a: u64, b: u64) -> u64
    ensures { result ≡ capped (a + b) }
{
    least(least(a) + least(b))
}

fn times(n: u32, a: u64) -> u64
    ensures { result ≡ capped (n * a) }
{
    least(u64::from(n) * least(a))
}

fn quadwords_of(kind: Kind, n: u32) -> u64
    ensures { result ≡ record_quadwords kind n }
{
    let count = u64::from(n);
    match kind {
        Kind::Data => 2 + count,
        Kind::Code => 2 + count.div_ceil(2),
        Kind::Gs => 3 + count,
        Kind::Start => 2,
    }
}

fn steps_of(kind: Kind, n: u32) -> u64
    ensures { result ≡ record_steps kind n }
{
    let count = u64::from(n);
    match kind {
        Kind::Data => 5 + 4 * count,
        Kind::Code => 5 + 4 * count.div_ceil(2),
        Kind::Gs => 6 + count,
        Kind::Start => 5,
    }
}

fn entries_of(kind: Kind, n: u32) -> u64
    ensures { result ≡ entries_of kind n }
{
    match kind {
        Kind::Data | Kind::Code => 0,
        Kind::Gs => u64::from(n),
        Kind::Start => 1,
    }
}

impl Totals {
    pub(crate) const NONE: Totals = Totals {
        quadwords: 0,
        steps: 0,
        entries: 0,
    };

    // The end tag is one quadword and one step.
    pub(crate) const END_TAG: Totals = Totals {
        quadwords: 1,
        steps: 1,
        entries: 0,
    };

    // The sums of a record of so many.
    pub(crate) fn of_record(kind: Kind, n: u32) -> Totals
        ensures { result ≡ capped_totals (record_quadwords kind n) (record_steps kind n) (entries_of kind n) }
    {
        Totals {
            quadwords: least(quadwords_of(kind, n)),
            steps: least(steps_of(kind, n)),
            entries: least(entries_of(kind, n)),
        }
    }

    // Two sums as one.
    #[tactic(auto, unfolding(crate::specs::Sums::joined))]
    pub(crate) fn joined(self, other: Totals) -> Totals
        ensures { result ≡ joined self other }
    {
        Totals {
            quadwords: plus(self.quadwords, other.quadwords),
            steps: plus(self.steps, other.steps),
            entries: plus(self.entries, other.entries),
        }
    }

    // The sum so many times.
    #[tactic(auto, unfolding(crate::specs::Sums::scaled))]
    pub(crate) fn scaled(self, n: u32) -> Totals
        ensures { result ≡ scaled n self }
    {
        Totals {
            quadwords: times(n, self.quadwords),
            steps: times(n, self.steps),
            entries: times(n, self.entries),
        }
    }
}
