// V4-32 with M clear and MODE 0 by a short way: a vector's four words are stored as they came, and no elements are split.
ghost use Rattle.std.specs.Prelude.{◌≡◌, true, [], ◌∷◌, ℕ, ◌<◌, ◌≤◌, ◌+◌, ◌*◌, ◌-◌, ◌%◌, ◌^◌, length};
ghost use Rattle.fields.specs.Memory.{word_at};
ghost use Rattle.unpack_rules.specs.declared.Unpacking.{Unpacking as UnpackingT};
ghost use Rattle.unpack_rules.specs.Position.{address_most, position_of};
ghost use Rattle.unpack_rules.specs.Range.{CycleFits};
ghost use Rattle.unpack_rules.specs.Inner.{MemoryFits};
ghost use Rattle.unpack_rules.specs.Whole.{words_from};
ghost use Rattle.unpack.specs.Short.{is_whole, goes_short, stores_from, ShortFits, Ended, ShortWord, ShortCopy, ShortWords, skipped};

use super::copy::{copy_writes, word_inside};
use super::cycle::writes_done;
use super::words::held;
use super::write::{Writes, store_quadword};
use fields::word_at;
use unpack_rules::{Format, Registers, Unpacking, vectors_before};

fn is_whole(f: Format) -> bool
    ensures { result ≡ is_whole f }
{
    matches!(f, Format::V4x32)
}

// Whether an UNPACK takes the short way.
#[tactic(auto, unfolding(crate::specs::Short::goes_short))]
pub(crate) fn goes_short(f: Format, u: Unpacking, r: Registers) -> bool
    ensures { result ≡ goes_short f u r }
{
    !u.masked && r.mode == 0 && is_whole(f)
}

// Four words, of 32 bits each.
fn four(a: u32, b: u32, c: u32, d: u32) -> [u32; 4]
    ensures { (result ≡ a ∷ b ∷ c ∷ d ∷ []) × (a < 2 ^ 32) × (b < 2 ^ 32) × (c < 2 ^ 32) × (d < 2 ^ 32) }
{
    [a, b, c, d]
}

// The writes from number `first` to below `last`, all of one vector.
fn store_each(w: Writes, words: [u32; 4], data: &mut [u32])
    requires { let r = w.registers in CycleFits r.cl r.wl × MemoryFits w.size «data».old × (w.address ≤ address_most) × (w.last ≤ 256) }
    ensures { let r = w.registers in «data».new
        ≡ stores_from (position_of w.size w.address r.cl r.wl) (λ (i : ℕ). words) (w.last - w.first) w.first «data».old }
{
    for i in w.first..w.last {
        let quad = w.place(i);
        store_quadword(data, quad as usize, words);
    }
}

// One payload word: the fourth of a vector stores the four.
pub(crate) fn take_short(size: u32, u: Unpacking, r: Registers, word: u32, data: &mut [u32])
    requires { ShortFits size u r «data».old }
    ensures { ShortWord size u r word «data».old «data».new }
{
    if u.due % 4 != 1 {
        return;
    }
    let v = vectors_before(r.cl, r.wl, u.count) - u.due / 4 - 1;
    let words = four(u.first, u.second, u.third, word);
    let writes = Writes {
        size,
        address: u.address,
        registers: r,
        first: writes_done(r.cl, r.wl, v, u.count),
        last: writes_done(r.cl, r.wl, v + 1, u.count),
    };
    store_each(writes, words, data);
}

// The whole vectors of n payload words after those of a vector begun, which lie in main memory from byte a on, and the fills after them.
fn copy_vectors(
    size: u32,
    u: Unpacking,
    r: Registers,
    n: u32,
    main: &[u8],
    a: usize,
    data: &mut [u32],
)
    requires { ShortFits size u r «data».old × (4 ≤ n) × (n + u.due % 4 < u.due) × (a + 4 * n ≤ length main.now) × (a < 2 ^ 32) }
    ensures { (begun : UnpackingT) → Ended u begun
        → ShortCopy size begun r (words_from main.now a n) «data».old «data».new }
{
    let v = vectors_before(r.cl, r.wl, u.count) - u.due / 4;
    let writes = Writes {
        size,
        address: u.address,
        registers: r,
        first: writes_done(r.cl, r.wl, v, u.count),
        last: writes_done(r.cl, r.wl, v + n / 4, u.count),
    };
    copy_writes(writes, main, a, data);
}

// What waits after k words that end at a byte.
pub(crate) fn skip(u: Unpacking, k: u32, main: &[u8], end: usize) -> Unpacking
    requires { (k ≤ u.due) × (12 ≤ end) × (end ≤ length main.now) }
    ensures { result
        ≡ skipped u k (word_at main.now (end - 12)) (word_at main.now (end - 8)) (word_at main.now (end - 4)) }
{
    Unpacking {
        due: u.due - k,
        first: word_inside(main, end - 12),
        second: word_inside(main, end - 8),
        third: word_inside(main, end - 4),
        ..u
    }
}

// n payload words, one after another.
fn take_singly(
    size: u32,
    u: Unpacking,
    r: Registers,
    main: &[u8],
    a: u32,
    n: u32,
    data: &mut [u32],
) -> Unpacking
    requires { ShortFits size u r «data».old × (n < u.due) × (a + 4 * n < 2 ^ 32) }
    ensures { ShortWords size u r (words_from main.now a n) «data».old result «data».new }
{
    let mut rest = u;
    for k in 0..n {
        let word = word_at(main, a + 4 * k);
        take_short(size, rest, r, word, data);
        rest = held(rest, word);
    }
    rest
}

// The n words that end a vector begun; none where no vector is.
fn end_vector(size: u32, u: Unpacking, r: Registers, main: &[u8], a: u32, n: u32, data: &mut [u32])
    requires { ShortFits size u r «data».old × (n < u.due) × (a + 4 * n < 2 ^ 32) }
    ensures { ShortCopy size u r (words_from main.now a n) «data».old «data».new }
{
    if n != 0 {
        take_singly(size, u, r, main, a, n, data);
    }
}

// Whether n words from an address on lie inside main memory and have a whole vector after `lead` of them.
pub(crate) fn has_vectors(main: &[u8], a: u32, lead: u32, n: u32) -> bool
    requires { (lead < 4) × (a ≤ 1048576) × (n ≤ 1024) }
    ensures { result ≡ true → (lead + 4 ≤ n) × (a + 4 * n ≤ length main.now) }
{
    lead + 4 <= n && a as usize + 4 * n as usize <= main.len()
}

// The next n payload words, not the last: those that end a vector begun, whole vectors copied, and those after them.
pub(crate) fn take_all(
    size: u32,
    u: Unpacking,
    r: Registers,
    main: &[u8],
    a: u32,
    n: u32,
    data: &mut [u32],
) -> Unpacking
    requires { ShortFits size u r «data».old × (n < u.due) × (a ≤ 1048576) }
    ensures { ShortWords size u r (words_from main.now a n) «data».old result «data».new }
{
    let lead = u.due % 4;
    if has_vectors(main, a, lead, n) {
        end_vector(size, u, r, main, a, lead, data);
        let at = a + 4 * lead;
        copy_vectors(size, u, r, n - lead, main, at as usize, data);
        return skip(u, n, main, a as usize + 4 * n as usize);
    }
    take_singly(size, u, r, main, a, n, data)
}
