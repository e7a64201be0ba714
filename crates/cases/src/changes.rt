// What changed in a memory: how many numbers, then the index and the new value of each; and the new values taken over. Numbers beyond a memory's end are 0.
ghost use Rattle.std.specs.Prelude.{◌≡◌, length, get_or};
ghost use Rattle.wire.specs.Words.{sent_all};
ghost use Rattle.cases.specs.Memories.{ruled};
ghost use Rattle.cases.specs.Changes.{counted, changed, changes};

use super::number::{Shown, number_in};
use wire::{Output, low_word};

fn count_changes<T: Shown>(memory: &[T], before: &[T]) -> u32
    ensures { result ≡ counted (T.number memory.now) (T.number before.now) (T.count before.now) }
{
    let mut count = 0u32;
    for i in 0..T::count(before) {
        let changed = T::number(memory, i) != T::number(before, i);
        count = count.wrapping_add(u32::from(changed));
    }
    count
}

fn emit_changes<T: Shown>(out: &mut Output, memory: &[T], before: &[T])
    ensures { out.new ≡ sent_all out.old.out out.old.at
        (changed T.words (T.number memory.now) (T.number before.now) (T.count before.now)) }
{
    for i in 0..T::count(before) {
        if T::number(memory, i) != T::number(before, i) {
            out.emit(low_word(i as u64));
            T::emit(memory, i, out);
        }
    }
}

fn keep<T: Shown>(memory: &[T], before: &mut [T])
    ensures { before.new ≡ ruled (λ i. get_or memory.now i (T.low 0)) (length before.old) }
{
    for i in 0..before.len() {
        before[i] = number_in(memory, i);
    }
}

// The changes of one memory.
pub fn tell<T: Shown>(out: &mut Output, memory: &[T], before: &mut [T])
    ensures changes { out.new ≡ sent_all out.old.out out.old.at
        (changes T.words (T.number memory.now) (T.number before.old) (T.count before.old)) }
    ensures taken_over { before.new ≡ ruled (λ i. get_or memory.now i (T.low 0)) (length before.old) }
{
    out.emit(count_changes(memory, before));
    emit_changes(out, memory, before);
    keep(memory, before);
}
