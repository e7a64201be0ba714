// Little-endian words in byte buffers, and a buffered writer of words to standard output, for the programs.
#![tactic(auto)]

ghost use Rattle.std.specs.Prelude.{◌≡◌, ◌+◌, ◌*◌, ◌/◌, ◌%◌, ◌^◌, ◌<◌, replicate, ℕ, List, [], ◌∷◌};
ghost use Rattle.std.specs.List.{flat_map};
ghost use Rattle.wire.specs.Words.{word_at, with_word, one, two, sent, sent_all};

// The word at a place, 0 where it is not whole.
pub fn word_at(bytes: &[u8], at: usize) -> u32
    ensures { result ≡ word_at bytes.now at }
{
    if 4 <= bytes.len() && at <= bytes.len() - 4 {
        return u32::from_le_bytes([bytes[at], bytes[at + 1], bytes[at + 2], bytes[at + 3]]);
    }
    0
}

// Stores a word, or nothing where it does not fit.
pub fn put_word(bytes: &mut [u8], at: usize, x: u32)
    ensures { bytes.new ≡ with_word bytes.old at x }
{
    if 4 <= bytes.len() && at <= bytes.len() - 4 {
        bytes[at..at + 4].copy_from_slice(&x.to_le_bytes());
    }
}

// The 64-bit number of a low and a high word.
pub fn joined(low: u32, high: u32) -> u64
    ensures { result ≡ low + high * 2 ^ 32 }
{
    u64::from(low) + (u64::from(high) << 32)
}

pub fn low_word(x: u64) -> u32
    ensures { result ≡ x % 2 ^ 32 }
{
    (x & 0xffff_ffff) as u32
}

pub fn high_word(x: u64) -> u32
    ensures { result ≡ x / 2 ^ 32 }
{
    (x >> 32) as u32
}

// The 64-bit number of two words at a place, the low one first.
pub fn long_at(bytes: &[u8], at: usize) -> u64
    ensures { result ≡ word_at bytes.now at + word_at bytes.now (at + 4) * 2 ^ 32 }
{
    match at.checked_add(4) {
        Some(next) => joined(word_at(bytes, at), word_at(bytes, next)),
        None => 0,
    }
}

// A buffer of words on their way to standard output, and the place of the next one.
#[derive(Drop)]
pub struct Output {
    pub out: [u8; 65536],
    pub at: usize,
}

// Writes out the first `at` bytes, and answers the place to go on at.
fn write_out(out: &[u8; 65536], at: usize) -> usize
    ensures { result ≡ 0 }
{
    if let Some(bytes) = out.get(..at) {
        io::write_all(1, bytes);
    }
    0
}

// Puts a word into a buffer from a place on, writing the buffer out first where it is full; answers the place after it. A loop over words keeps the place in a
// local: kept beside the buffer it is stored and loaded again for each word, and results took up to twice the time.
pub fn put(out: &mut [u8; 65536], at: usize, x: u32) -> usize
    ensures { sent out.new result ≡ sent_all out.old at (x ∷ []) }
{
    if 65532 < at {
        write_out(out, at);
        put_word(out, 0, x);
        return 4;
    }
    put_word(out, at, x);
    at + 4
}

impl Output {
    pub fn new() -> Output
        ensures { result ≡ sent (replicate 65536 0) 0 }
    {
        Output {
            out: [0; 65536],
            at: 0,
        }
    }

    // Writes out what the buffer holds, and begins it again.
    pub fn flush(&mut self)
        ensures { self.new ≡ sent self.old.out 0 }
    {
        write_out(&self.out, self.at);
        self.at = 0;
    }

    // Puts a number's words into the buffer.
    pub fn emit<T: Words>(&mut self, x: T)
        ensures { self.new ≡ sent_all self.old.out self.old.at (T.words x) }
    {
        x.emit_to(self);
    }

    // Puts the words of numbers into the buffer, one number after another.
    pub fn emit_all<T: Words>(&mut self, xs: &[T])
        ensures { self.new ≡ sent_all self.old.out self.old.at (flat_map T.words xs.now) }
    {
        let mut at = self.at;
        for x in xs {
            at = x.put_to(&mut self.out, at);
        }
        self.at = at;
    }
}

// A number that the output takes: a word as itself, a 64-bit number as its low word and then its high one.
pub trait Words: Copy {
    ghost words: { Self → List ℕ };

    // Puts its words into a buffer from a place on; answers the place after them. By `emit_to` the buffer is copied twice, so the numbers have bodies of their own.
    fn put_to(self, out: &mut [u8; 65536], at: usize) -> usize
        ensures { sent out.new result ≡ sent_all out.old at (words self) }
    {
        let mut output = Output { out: *out, at };
        self.emit_to(&mut output);
        *out = output.out;
        output.at
    }

    fn emit_to(self, output: &mut Output)
        ensures { output.new ≡ sent_all output.old.out output.old.at (words self) };
}

impl Words for u32 {
    ghost words = { one };

    fn put_to(self, out: &mut [u8; 65536], at: usize) -> usize {
        put(out, at, self)
    }

    fn emit_to(self, output: &mut Output) {
        output.at = self.put_to(&mut output.out, output.at);
    }
}

impl Words for u64 {
    ghost words = { two };

    fn put_to(self, out: &mut [u8; 65536], at: usize) -> usize {
        let next = put(out, at, low_word(self));
        put(out, next, high_word(self))
    }

    fn emit_to(self, output: &mut Output) {
        output.at = self.put_to(&mut output.out, output.at);
    }
}

#[cfg(test)]
mod tests {
    use super::*;

    // A word that is put twice, by the trait's own `put_to`.
    #[derive(Clone, Copy)]
    struct Twice(u32);

    impl Words for Twice {
        ghost words = { λ x. x.0 ∷ x.0 ∷ [] };

        fn emit_to(self, output: &mut Output) {
            output.emit(self.0);
            output.emit(self.0);
        }
    }

    #[test]
    fn words_of_another_type(rt: HostRuntime) {
        let mut output = Output::new();
        output.emit_all(&[Twice(1), Twice(0x0203)]);
        assert_eq!(rt; output.at, 16);
        assert_eq!(rt;
            &output.out[..16],
            [1, 0, 0, 0, 1, 0, 0, 0, 3, 2, 0, 0, 3, 2, 0, 0].as_slice()
        );
    }
}
