// The builder, the steps and the meaning of a sheet, and their results.
use cases::{Memories, emit_bytes, fill};
use sheet::SheetError;
use wire::{Output, long_at, low_word};

// The two words at the start of a part: the answer, and the offset or length beside it.
pub(crate) fn tell_head(out: &mut Output, number: u32, beside: usize) {
    out.emit(number);
    out.emit(low_word(beside as u64));
}

pub(crate) fn tell_error(out: &mut Output, error: SheetError) {
    tell_head(out, error.refusal.number(), error.offset);
}

// The case's fill.
pub(crate) fn fill_of(header: &[u8]) -> u64 {
    long_at(header, 32)
}

pub(crate) fn tell_build(out: &mut Output, header: &[u8], sheet: &[u8], output: &mut [u8]) {
    let number = sheet_builder::build_number(sheet, output);
    fill(output, fill_of(header).wrapping_add(3));
    match sheet_builder::build(sheet, output) {
        Ok(length) => tell_head(out, 0, length),
        Err(error) => tell_error(out, error),
    }
    out.emit(low_word(number as u64));
    emit_bytes(out, output);
}

pub(crate) fn tell_steps(out: &mut Output, sheet: &[u8]) {
    match sheet::steps(sheet) {
        Ok(steps) => {
            tell_head(out, 0, 0);
            out.emit(steps);
        }
        Err(error) => {
            tell_error(out, error);
            out.emit(0u64);
        }
    }
}

pub(crate) fn tell_meaning(
    out: &mut Output,
    header: &[u8],
    sheet: &[u8],
    memories: &mut Memories<'_>,
) {
    let used = long_at(header, 92);
    memories.fill(fill_of(header));
    let answer = sheet_meaning::meaning(sheet, memories.data, memories.code, memories.log, used);
    match answer {
        Ok(used) => {
            tell_head(out, 0, 0);
            out.emit(used);
        }
        Err(error) => {
            tell_error(out, error);
            out.emit(used);
        }
    }
    memories.emit(out);
}
