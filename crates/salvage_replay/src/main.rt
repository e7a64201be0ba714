// Reads salvage cases from standard input and writes what each leaves (docs/FORMATS.md, "Salvage cases").
#![tactic(auto)]

use cases::{Case, Damaged, StandardInput, emit_bytes, fill, read_part, run_cases};
use salvage::Sums;
use wire::{Output, long_at, low_word, word_at};

// The three words at the start of a result.
fn tell_head(out: &mut Output, number: u32, sums: Sums) {
    out.emit(number);
    out.emit(low_word(sums.bytes as u64));
    out.emit(low_word(sums.ranges as u64));
}

// One case whose header was read.
fn run_case(
    out: &mut Output,
    header: &[u8],
    sheet: &mut [u8],
    output: &mut [u8],
    ranges: &mut [u64],
) -> Result<(), Damaged> {
    let size = word_at(header, 4) as usize;
    if word_at(header, 0) != 0x31565354 {
        return Err(Damaged);
    }
    read_part(sheet, size.div_ceil(4) * 4)?;
    let sheet = sheet.get(..size).ok_or(Damaged)?;
    let output = output
        .get_mut(..word_at(header, 8) as usize)
        .ok_or(Damaged)?;
    let ranges = ranges
        .get_mut(..word_at(header, 12) as usize)
        .ok_or(Damaged)?;
    let first = long_at(header, 16);
    fill(output, first.wrapping_add(3));
    fill(ranges, first.wrapping_add(2));
    match salvage::salvage(sheet, output, ranges) {
        Ok(sums) => tell_head(out, 0, sums),
        Err(refusal) => tell_head(
            out,
            refusal.number(),
            Sums {
                bytes: 0,
                ranges: 0,
            },
        ),
    }
    emit_bytes(out, output);
    out.emit_all(ranges);
    Ok(())
}

// What cases run on: the sheet, the bytes salvaged and the ranges dropped.
#[derive(Drop)]
struct Buffers<'a> {
    sheet: &'a mut [u8],
    output: &'a mut [u8],
    ranges: &'a mut [u64],
}

impl Case for Buffers<'_> {
    fn run(&mut self, out: &mut Output, header: &[u8]) -> Result<(), Damaged> {
        run_case(out, header, self.sheet, self.output, self.ranges)
    }
}

fn main() {
    let mut sheet = [0u8; 131088];
    let mut output = [0u8; 131088];
    let mut ranges = [0u64; 65536];
    let mut buffers = Buffers {
        sheet: &mut sheet,
        output: &mut output,
        ranges: &mut ranges,
    };
    run_cases(&mut StandardInput, &mut [0; 24], &mut buffers);
}
