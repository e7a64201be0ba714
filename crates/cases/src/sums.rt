// Sums of memories.
ghost use Rattle.std.specs.Prelude.{◌≡◌, ◌%◌, ◌^◌, map};
ghost use Rattle.cases.specs.Memories.{sum_of};

use super::number::Number;

pub fn sum<T: Number>(memory: &[T]) -> u64
    ensures { result ≡ sum_of (map T.wide memory.now) % 2 ^ 64 }
{
    let mut sum = 0u64;
    for x in memory {
        sum = sum.wrapping_add(x.wide());
    }
    sum
}
