// Memories as a case fills them.
ghost use Rattle.std.specs.Prelude.{◌≡◌, length};
ghost use Rattle.cases.specs.Memories.{filled};

use super::number::Number;

// Fills a memory from a number on, each element with the low bits of the next.
pub fn fill<T: Number>(memory: &mut [T], first: u64)
    ensures { memory.new ≡ filled T.low first (length memory.old) }
{
    let mut x = first;
    for place in memory.iter_mut() {
        *place = T::low(x);
        x = x.wrapping_add(11400714819323198485);
    }
}
