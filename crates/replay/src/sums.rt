// The sums of the memories.
use cases::Number;
use wire::Output;

// A memory's sum, and the sum of the sums on the way to it.
pub(crate) fn tell_sum<T: Number>(out: &mut Output, memory: &[T]) {
    let mut sum = 0u64;
    let mut sums = 0u64;
    for x in memory {
        sum = sum.wrapping_add(x.wide());
        sums = sums.wrapping_add(sum);
    }
    out.emit(sum);
    out.emit(sums);
}
