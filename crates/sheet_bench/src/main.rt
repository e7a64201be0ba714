// Builds a chain round after round, to be timed (docs/FORMATS.md, "Sheet timing input").
#![tactic(auto)]

use sheet_builder::build_number;
use wire::{Output, low_word, word_at};

// Tells the number that the builder gave last, and the sum of what it built.
fn time(sheet: &[u8], output: &mut [u8; 1048576], count: u32) {
    let mut last = 0;
    for _ in 0..count {
        last = build_number(sheet, output);
    }
    let mut out = Output::new();
    out.emit(low_word(last as u64));
    out.emit(cases::sum(output));
    out.flush();
}

// The input whose header was read, where it has the length that it says.
fn begin(header: &[u8], sheet: &mut [u8], output: &mut [u8; 1048576]) {
    let size = word_at(header, 4) as usize;
    if 131088 < size || io::read_full(0, sheet) != size.div_ceil(4) * 4 {
        return;
    }
    if let Some(sheet) = sheet.get(..size) {
        time(sheet, output, word_at(header, 0));
    }
}

fn main() {
    let mut header = [0u8; 8];
    let mut sheet = [0u8; 131089];
    let mut output = [0u8; 1048576];
    if io::read_full(0, &mut header) == 8 {
        begin(&header, &mut sheet, &mut output);
    }
}
