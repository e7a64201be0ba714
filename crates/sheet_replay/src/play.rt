// The sheet's chain built in main memory and run, and the result.
use super::parts::{fill_of, tell_error, tell_head};
use blocks::{answer_number, block_at, emit_counts, shown_block};
use cases::{Memories, emit_bytes, fill};
use conformance::{PlayError, build_and_run};
use state_block::state_given;
use wire::{Output, long_at, word_at};

// Builds and runs, and tells all but the memories.
fn play(
    out: &mut Output,
    header: &[u8],
    sheet: &[u8],
    main: &mut [u8],
    memories: &mut Memories<'_>,
) {
    let block = block_at(header, 48);
    let r = build_and_run(
        sheet,
        main,
        word_at(header, 16),
        memories.data,
        memories.code,
        memories.log,
        state_given(&block),
        long_at(header, 40),
    );
    match r.answer {
        Ok(ending) => tell_head(out, answer_number(Ok(ending)), 0),
        Err(PlayError::Run(refusal)) => tell_head(out, refusal.number(), 0),
        Err(PlayError::Sheet(error)) => tell_error(out, error),
    }
    emit_counts(out, r.counts);
    out.emit_all(&shown_block(block, r.state));
}

pub(crate) fn tell_play(
    out: &mut Output,
    header: &[u8],
    sheet: &[u8],
    main: &mut [u8],
    memories: &mut Memories<'_>,
) {
    memories.fill(fill_of(header));
    fill(main, fill_of(header).wrapping_add(4));
    play(out, header, sheet, main, memories);
    memories.emit(out);
    emit_bytes(out, main);
}
