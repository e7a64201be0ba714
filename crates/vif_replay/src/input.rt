// What a case's header says, and the words that follow it.
use cases::{Damaged, read_part, read_words};
use wire::word_at;

// Whether the numbers of a header, but for the memories' lengths, are within their limits.
pub(crate) fn header_right(header: &[u8]) -> bool {
    let number = word_at(header, 196);
    let groups = word_at(header, 200);
    let count = word_at(header, 204);
    word_at(header, 0) == 0x33495654
        && number <= 3
        && groups <= 65535
        && count <= 262144
        && word_at(header, 208) <= 1
        && (number + count) % 4 == 0
}

// Reads words, if there are so many.
pub(crate) fn read_input(words: &mut [u32]) -> Result<(), Damaged> {
    let mut space = [0u8; 4096];
    for part in words.chunks_mut(1024) {
        read_part(&mut space, 4 * part.len())?;
        read_words(&space, 0, part);
    }
    Ok(())
}
