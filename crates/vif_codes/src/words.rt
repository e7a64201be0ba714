// Words as they come to the unit.
ghost use Rattle.std.specs.Prelude.{◌≡◌, ◌+◌, ◌/◌, ◌%◌};
ghost use Rattle.fields.specs.Memory.{word_at};
ghost use Rattle.vif_codes.specs.declared.Incoming.TheVariants.{Word0};
ghost use Rattle.vif_codes.specs.Words.{incoming_at, word_in, odd_word};

use super::Incoming;
use fields::word_at;

// A whole quadword.
fn quadword_at(main: &[u8], a: u32) -> Incoming
    requires { a / 4 % 4 ≡ 0 }
    ensures { result
        ≡ Word0 (word_at main.now a) (word_at main.now (a + 4)) (word_at main.now (a + 8)) (word_at main.now (a + 12)) }
{
    Incoming::Word0(
        word_at(main, a),
        word_at(main, a + 4),
        word_at(main, a + 8),
        word_at(main, a + 12),
    )
}

// The word at an address, by its number in its quadword; bytes past main memory's end count as 0.
pub fn incoming_at(main: &[u8], a: u32) -> Incoming
    ensures { result ≡ incoming_at main.now a }
{
    match a / 4 % 4 {
        0 => quadword_at(main, a),
        1 => Incoming::Word1(word_at(main, a)),
        2 => Incoming::Word2(word_at(main, a)),
        _ => Incoming::Word3(word_at(main, a)),
    }
}

impl Incoming {
    // The next word.
    pub fn word(self) -> u32
        ensures { result ≡ word_in self }
    {
        match self {
            Incoming::Word0(a, ..) => a,
            Incoming::Word1(a) => a,
            Incoming::Word2(a) => a,
            Incoming::Word3(a) => a,
        }
    }

    // Whether it is word 1 or 3 of its quadword.
    pub fn is_odd(self) -> bool
        ensures { result ≡ odd_word self }
    {
        matches!(self, Incoming::Word1(_) | Incoming::Word3(_))
    }
}
