// Totals and counts as numbers that stand one after another.
ghost use Rattle.std.specs.Prelude.{◌≡◌, ◌≤◌, get_or};
ghost use Rattle.totals.specs.Numbers.{qwc_at, totals_from, counts_from};

use super::Totals;
use fields::{Counts, Qwc};

// A number, 0 past the end.
fn number_at(numbers: &[u64], i: usize) -> u64
    ensures { result ≡ get_or numbers.now i 0 }
{
    numbers.get(i).copied().unwrap_or(0)
}

// The eight sums from a place on.
fn qwc_at(numbers: &[u64], at: usize) -> Qwc
    requires { at ≤ 4 }
    ensures { result ≡ qwc_at numbers.now at }
{
    Qwc {
        id0: number_at(numbers, at),
        id1: number_at(numbers, at + 1),
        id2: number_at(numbers, at + 2),
        id3: number_at(numbers, at + 3),
        id4: number_at(numbers, at + 4),
        id5: number_at(numbers, at + 5),
        id6: number_at(numbers, at + 6),
        id7: number_at(numbers, at + 7),
    }
}

// The totals in eleven numbers.
pub fn totals_from(numbers: &[u64]) -> Totals
    ensures { result ≡ totals_from numbers.now }
{
    Totals {
        packets: number_at(numbers, 0),
        words: number_at(numbers, 1),
        nops: number_at(numbers, 2),
        qwc: qwc_at(numbers, 3),
    }
}

// The counts in twelve numbers.
pub fn counts_from(numbers: &[u64]) -> Counts
    ensures { result ≡ counts_from numbers.now }
{
    Counts {
        steps: number_at(numbers, 0),
        packets: number_at(numbers, 1),
        words: number_at(numbers, 2),
        nops: number_at(numbers, 3),
        qwc: qwc_at(numbers, 4),
    }
}
