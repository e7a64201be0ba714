// The NOP share.
ghost use Rattle.totals.specs.Share.{NopShare};
ghost use Rattle.totals.specs.Inner.{Greatest};

use super::{Share, Totals};

// The greatest number that divides both, by Euclid.
fn greatest_divisor(a: u64, b: u64) -> u64
    ensures { Greatest a b result }
{
    let (mut x, mut y) = (a, b);
    while y != 0 {
        (x, y) = (y, x % y);
    }
    x
}

// NOPs over VIF words in lowest terms, of any totals.
pub fn nop_share(totals: Totals) -> Share
    ensures { NopShare totals.nops totals.words result }
{
    if totals.words == 0 {
        return Share { nops: 0, words: 1 };
    }
    let d = greatest_divisor(totals.nops, totals.words);
    Share {
        nops: totals.nops / d,
        words: totals.words / d,
    }
}
