// Numbers written to the start of a result.
#![tactic(auto, unfolding(crate::specs::Buffers::written))]

ghost use Rattle.std.specs.Prelude.{◌≡◌, ◌+◌, ◌++◌, ◌≤◌, length};
ghost use Rattle.fields.specs.Counts.{count_numbers};
ghost use Rattle.tejborun.specs.Buffers.{written};

use fields::{Counts, count_numbers};

// Writes numbers to the start of a result.
pub(crate) fn put(res: &mut [u64], numbers: &[u64])
    requires { length numbers.now ≤ length res.old }
    ensures { res.new ≡ written numbers.now res.old }
{
    res[..numbers.len()].copy_from_slice(numbers);
}

// A run's counts.
pub(crate) fn put_counts(res: &mut [u64], counts: Counts)
    requires { 12 ≤ length res.old }
    ensures { res.new ≡ written (count_numbers counts) res.old }
{
    put(res, &count_numbers(counts));
}

#[tactic(auto, unfolding(crate::specs::Buffers::written), using(crate::proofs::BufferLaws::written_behind))]
// Numbers, and a run's counts after them.
pub(crate) fn put_before(res: &mut [u64], numbers: &[u64], counts: Counts)
    requires { length numbers.now + 12 ≤ length res.old }
    ensures { res.new ≡ written (numbers.now ++ count_numbers counts) res.old }
{
    put(res, numbers);
    put_counts(&mut res[numbers.len()..], counts);
}
