// Quadwords copied from main memory to data memory as they are.
ghost use Rattle.std.specs.Prelude.{◌≡◌, ℕ, suc, ◌<◌, ◌≤◌, ◌+◌, ◌*◌, ◌-◌, ◌%◌, ◌^◌, length};
ghost use Rattle.fields.specs.Memory.{word_at};
ghost use Rattle.unpack_rules.specs.Position.{address_most, position_of};
ghost use Rattle.unpack_rules.specs.Range.{CycleFits};
ghost use Rattle.unpack_rules.specs.Inner.{MemoryFits};
ghost use Rattle.unpack.specs.Short.{quad_from, stores_from, words_of_write, copy_words, CopyFits, Stride};

use super::write::{Writes, store_quadword};
use unpack_rules::{place_in_cycle, wrapped};

// The word at a place that lies inside.
pub(crate) fn word_inside(main: &[u8], at: usize) -> u32
    requires { at + 4 ≤ length main.now }
    ensures { result ≡ word_at main.now at }
{
    u32::from_le_bytes([main[at], main[at + 1], main[at + 2], main[at + 3]])
}

// The four words at a place that lies inside.
fn quad_inside(main: &[u8], at: usize) -> [u32; 4]
    requires { at + 16 ≤ length main.now }
    ensures { result ≡ quad_from main.now at }
{
    [
        word_inside(main, at),
        word_inside(main, at + 4),
        word_inside(main, at + 8),
        word_inside(main, at + 12),
    ]
}

// n words from a byte on, one after another.
fn copy_words(main: &[u8], a: usize, n: usize, data: &mut [u32], to: usize)
    requires { (a + 4 * n ≤ length main.now) × (to + n ≤ length «data».old) }
    ensures { «data».new ≡ copy_words main.now n a to «data».old }
{
    for j in 0..n {
        data[to + j] = word_inside(main, a + 4 * j);
    }
}

// Quadword after quadword, up to the wrap and on from it. Beside `store_runs` of vectors: a closure that stores would need each of its steps in a contract.
fn copy_runs(w: Writes, main: &[u8], a: usize, data: &mut [u32])
    requires { MemoryFits w.size «data».old × (w.address ≤ address_most) × (w.last ≤ 256) × (w.first < w.last)
        × (a + 16 * (w.last - w.first) ≤ length main.now) }
    ensures { «data».new
        ≡ stores_from (λ (i : ℕ). (w.address + i) % w.size) (λ (i : ℕ). quad_from main.now (a + 16 * suc i - 16 * suc w.first))
        (w.last - w.first) w.first «data».old }
{
    let mut i = w.first;
    let mut at = a;
    // no `for`: it goes on by a run's length
    while i < w.last {
        let quad = wrapped(w.size, w.address + i);
        let run = (w.last - i).min(w.size - quad);
        copy_words(main, at, 4 * run as usize, data, 4 * quad as usize);
        at += 16 * run as usize;
        i += run;
    }
}

// How far the next write lies from one that is at a place of its cycle. By a saturating difference the loops would be a fifth slower where writes fill.
pub(crate) fn stride(cl: u32, wl: u32, cycle: u32) -> u32
    requires { CycleFits cl wl × (cycle < wl) }
    ensures { Stride cl wl cycle result }
{
    if cl < wl {
        return 1;
    }
    if cycle + 1 == wl { 1 + (cl - wl) } else { 1 }
}

// The place in its cycle of the write after one.
pub(crate) fn next_in_cycle(wl: u32, cycle: u32) -> u32
    requires { (wl ≤ 255) × (cycle < wl) }
    ensures { (cycle + 1 ≡ wl → result ≡ 0) × (cycle + 1 < wl → result ≡ cycle + 1) }
{
    if cycle + 1 == wl { 0 } else { cycle + 1 }
}

// Where the vector of a write at a place of its cycle lies, of a size, from that of the write before it: a fill has the same.
pub(crate) fn next_vector<const SIZE: usize>(cl: u32, cycle: u32, at: usize) -> usize
    requires { (at < 2 ^ 33) × (SIZE ≤ 16) }
    ensures { (cycle < cl → result ≡ at + SIZE) × (cl ≤ cycle → result ≡ at) }
{
    if cycle < cl { at + SIZE } else { at }
}

// Write after write, their places advanced: words that lie in main memory, where `store_apart` of vectors has words read before.
fn copy_apart(w: Writes, main: &[u8], a: usize, data: &mut [u32])
    requires { let r = w.registers in CopyFits w.size w.address r.cl r.wl w.first w.last a main.now «data».old }
    ensures { let r = w.registers in «data».new
        ≡ stores_from (position_of w.size w.address r.cl r.wl) (words_of_write main.now a r.cl r.wl w.first) (w.last - w.first) w.first
        «data».old }
{
    let r = w.registers;
    let mut quad = w.place(w.first);
    let mut cycle = place_in_cycle(r.wl, w.first);
    let mut at = a;
    for _i in w.first..w.last {
        store_quadword(data, quad as usize, quad_inside(main, at));
        quad = wrapped(w.size, quad + stride(r.cl, r.wl, cycle));
        cycle = next_in_cycle(r.wl, cycle);
        at = next_vector::<16>(r.cl, cycle, at);
    }
}

// The writes from number `first` to below `last`.
pub(crate) fn copy_writes(w: Writes, main: &[u8], a: usize, data: &mut [u32])
    requires { let r = w.registers in CopyFits w.size w.address r.cl r.wl w.first w.last a main.now «data».old }
    ensures { let r = w.registers in «data».new
        ≡ stores_from (position_of w.size w.address r.cl r.wl) (words_of_write main.now a r.cl r.wl w.first) (w.last - w.first) w.first
        «data».old }
{
    if w.registers.cl == w.registers.wl {
        copy_runs(w, main, a, data);
    } else {
        copy_apart(w, main, a, data);
    }
}
