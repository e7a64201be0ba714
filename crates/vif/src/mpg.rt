// MPG: words stored to code memory.
ghost use Rattle.std.specs.Prelude.{◌≡◌, ◌+◌, ◌*◌, ◌%◌, ◌≤◌, length};
ghost use Rattle.vif_codes.specs.Payload.{word_place, mpg_stored};
ghost use Rattle.vif_codes.specs.Codes.{mpg_addresses, mpg_address_most};
ghost use Rattle.vif.specs.Step.{mpg_refused};
ghost use Rattle.vif.specs.Inner.{MpgReady, stored_words, StoreFits};

use vif_codes::Incoming;

// Whether the first word is due and the next word is word 1 or 3 of its quadword.
#[tactic(auto, unfolding(crate::specs::Step::mpg_refused))]
pub(crate) fn mpg_refused(count: u32, due: u32, next: Incoming) -> bool
    requires { count ≤ 256 }
    ensures { result ≡ mpg_refused count due next }
{
    due == count + count && next.is_odd()
}

// A place modulo the memory's size.
fn wrapped(size: u32, at: u32) -> u32
    requires { 1 ≤ size }
    ensures { result ≡ at % size }
{
    if at < size { at } else { at % size }
}

// Where word k of the payload goes, in bytes.
fn word_place(size: u32, address: u32, k: u32) -> u32
    requires { (1 ≤ size) × (size ≤ mpg_addresses) × (address ≤ mpg_address_most) × (k ≤ 512) }
    ensures { (result ≡ word_place size address k) × (result + 4 ≤ 8 * size) }
{
    8 * wrapped(size, address + k / 2) + 4 * (k % 2)
}

// The next word of an MPG, in a memory of `size` instructions.
pub(crate) fn store_mpg(size: u32, address: u32, count: u32, due: u32, word: u32, code: &mut [u8])
    requires { MpgReady size address count due code.old }
    ensures { code.new ≡ mpg_stored size address count due word code.old }
{
    let at = word_place(size, address, count + count - due) as usize;
    code[at..at + 4].copy_from_slice(&word.to_le_bytes());
}

// Copies bytes, a loop by itself: by `copy_from_slice` the library for C would ask for memmove.
fn copy_bytes(from: &[u8], to: &mut [u8])
    requires { length from.now ≡ length to.old }
    ensures { to.new ≡ from.now }
{
    for i in 0..from.len() {
        to[i] = from[i];
    }
}

// n words of main memory from an address on, as those of an MPG from number `first` on: up to the wrap and on from it.
pub(crate) fn store_words(
    size: u32,
    address: u32,
    first: u32,
    main: &[u8],
    a: u32,
    n: u32,
    code: &mut [u8],
)
    requires { StoreFits size address first a n main.now code.old }
    ensures { code.new ≡ stored_words size address main.now n first a code.old }
{
    // No `for`: k goes on by a whole run.
    let mut k: u32 = 0;
    while k < n {
        let place = word_place(size, address, first + k);
        let run = (n - k).min(2 * size - place / 4);
        let from = (a + 4 * k) as usize;
        let at = place as usize;
        let bytes = 4 * run as usize;
        copy_bytes(&main[from..from + bytes], &mut code[at..at + bytes]);
        k += run;
    }
}
