// A run's counts added to the totals.
ghost use Rattle.std.specs.Prelude.{◌≡◌};
ghost use Rattle.totals.specs.Totals.{added_by, add_of};
ghost use Rattle.totals.specs.Inner.{qwc_added, sums_added};

use super::Totals;
use fields::{Counts, Qwc, Refusal};

// The sums of QWC, none where one would pass 2^64 - 1.
fn added_qwc(a: Qwc, b: Qwc) -> Option<Qwc>
    ensures { result ≡ qwc_added a b }
{
    Some(Qwc {
        id0: a.id0.checked_add(b.id0)?,
        id1: a.id1.checked_add(b.id1)?,
        id2: a.id2.checked_add(b.id2)?,
        id3: a.id3.checked_add(b.id3)?,
        id4: a.id4.checked_add(b.id4)?,
        id5: a.id5.checked_add(b.id5)?,
        id6: a.id6.checked_add(b.id6)?,
        id7: a.id7.checked_add(b.id7)?,
    })
}

// The eleven sums, none where one would pass 2^64 - 1.
fn added(totals: Totals, counts: Counts) -> Option<Totals>
    ensures { result ≡ sums_added totals counts }
{
    Some(Totals {
        packets: totals.packets.checked_add(counts.packets)?,
        words: totals.words.checked_add(counts.words)?,
        nops: totals.nops.checked_add(counts.nops)?,
        qwc: added_qwc(totals.qwc, counts.qwc)?,
    })
}

// The counts of a run added to the totals, of which none changes on a refusal.
pub fn add_totals(totals: Totals, counts: Counts) -> Result<Totals, Refusal>
    ensures { added_by totals result ≡ add_of totals counts }
{
    added(totals, counts).ok_or(Refusal::TotalFull)
}
