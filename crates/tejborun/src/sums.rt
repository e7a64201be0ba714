// Totals over many runs.
ghost use Rattle.std.specs.Prelude.{◌≡◌};
ghost use Rattle.totals.specs.Totals.{numbers_of};
ghost use Rattle.tejborun.specs.Buffers.{answered};
ghost use Rattle.tejborun.specs.Totals.{add_call, ShareCall};

use super::results::put;
use fields::BUFFER_SHORT;
use totals::{Totals, counts_from, totals_from};

const TOTALS: usize = 11;

const COUNTS: usize = 12;

fn numbers_of(t: Totals) -> [u64; TOTALS]
    ensures { result ≡ numbers_of t }
{
    let q = t.qwc;
    [
        t.packets, t.words, t.nops, q.id0, q.id1, q.id2, q.id3, q.id4, q.id5, q.id6, q.id7,
    ]
}

#[unsafe(no_mangle)]
pub extern "C" fn tejborun_add_totals(sums: &mut [u64], counts: &[u64]) -> u32
    ensures { answered result sums.new ≡ add_call sums.old counts.now }
{
    if sums.len() != TOTALS || counts.len() < COUNTS {
        return BUFFER_SHORT;
    }
    match totals::add_totals(totals_from(sums), counts_from(counts)) {
        Ok(after) => {
            put(sums, &numbers_of(after));
            0
        }
        Err(refusal) => refusal.number(),
    }
}

#[unsafe(no_mangle)]
pub extern "C" fn tejborun_nop_share(sums: &[u64], res: &mut [u64]) -> u32
    ensures { ShareCall sums.now res.old (answered result res.new) }
{
    if sums.len() != TOTALS || res.len() < 2 {
        return BUFFER_SHORT;
    }
    let r = totals::nop_share(totals_from(sums));
    put(res, &[r.nops, r.words]);
    0
}
