// Parts of a case read.
ghost use Rattle.std.specs.Prelude.{◌≡◌, length, is_ok};
ghost use Rattle.cases.specs.Memories.{ruled, word_from};
ghost use Rattle.cases.specs.Input.{PartRead};

use super::run::Damaged;
use wire::word_at;

// Fills the start of a buffer from standard input, where the buffer has room and there is enough.
pub fn read_part(buffer: &mut [u8], size: usize) -> Result<(), Damaged>
    ensures { PartRead buffer.old size (is_ok result) buffer.new }
{
    if size <= buffer.len() && io::read_full(0, &mut buffer[..size]) == size {
        return Ok(());
    }
    Err(Damaged)
}

// The words from a place on.
pub fn read_words(bytes: &[u8], at: u32, words: &mut [u32])
    ensures { words.new ≡ ruled (word_from bytes.now at) (length words.old) }
{
    for i in 0..words.len() {
        words[i] = word_at(bytes, at as usize + 4 * i);
    }
}

// So many words from a place on.
pub fn words_at<const N: usize>(bytes: &[u8], at: u32) -> [u32; N]
    ensures { result ≡ ruled (word_from bytes.now at) N }
{
    let mut words = [0; N];
    read_words(bytes, at, &mut words);
    words
}
