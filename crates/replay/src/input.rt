// What a case's header says, and what follows it: its calls, and main memory.
use cases::{Damaged, read_part};
use wire::word_at;

// Whether the numbers of a header, but for the lengths of the units' memories and the log, are within their limits.
pub(crate) fn header_right(header: &[u8]) -> bool {
    let size = word_at(header, 4);
    word_at(header, 0) == 0x33504354
        && size <= 1048608
        && word_at(header, 8) <= size / 4
        && word_at(header, 32) <= 1
        && word_at(header, 36) <= 65535
}

// The calls, if they are all there, and each is a start, a run, a set or a why.
pub(crate) fn read_calls<'a>(header: &[u8], calls: &'a mut [u8]) -> Result<&'a [u8], Damaged> {
    let size = 16 * word_at(header, 36) as usize;
    let calls = calls.get_mut(..size).ok_or(Damaged)?;
    read_part(calls, size)?;
    if calls
        .chunks_exact(16)
        .all(|call| matches!(word_at(call, 0), 1..=4))
    {
        return Ok(calls);
    }
    Err(Damaged)
}

// Main memory: the words that the case gives, and zeros.
pub(crate) fn read_main<'a>(header: &[u8], main: &'a mut [u8]) -> Result<&'a [u8], Damaged> {
    let given = 4 * word_at(header, 8) as usize;
    let main = main.get_mut(..word_at(header, 4) as usize).ok_or(Damaged)?;
    read_part(main, given)?;
    main.get_mut(given..).ok_or(Damaged)?.fill(0);
    Ok(main)
}
