// Reads check cases from standard input and writes what each leaves (docs/FORMATS.md, "Check cases").
#![tactic(auto)]

use blocks::emit_counts;
use cases::{Case, Damaged, LOG_NUMBERS, Memories, StandardInput, read_part, run_cases};
use supplier::{CheckResult, check_chain, kind, number, offset};
use wire::{Output, long_at, low_word, word_at};

// The bytes that main memory may have here, more than a run accepts.
const MAIN: usize = 1048608;

fn tell_result(out: &mut Output, r: CheckResult) {
    out.emit(kind(r.answer));
    out.emit(number(r.answer));
    out.emit(low_word(offset(r.answer) as u64));
    out.emit(r.used);
    emit_counts(out, r.counts);
}

// A case on its sheet and memories.
fn check(out: &mut Output, header: &[u8], sheet: &[u8], main: &[u8], lent: &mut Memories<'_>) {
    lent.fill(long_at(header, 28));
    let r = check_chain(
        sheet,
        main,
        lent.data,
        lent.code,
        lent.log,
        long_at(header, 36),
    );
    tell_result(out, r);
    lent.emit(out);
}

// One case whose header was read.
fn run_case(
    out: &mut Output,
    header: &[u8],
    sheet: &mut [u8],
    main: &mut [u8; MAIN],
    memories: &mut Memories<'_>,
) -> Result<(), Damaged> {
    let size = word_at(header, 4) as usize;
    let given = 4 * word_at(header, 12) as usize;
    // Before anything is read: what is given of main memory lies inside it.
    if word_at(header, 0) != 0x31484354 || (word_at(header, 8) as usize) < given {
        return Err(Damaged);
    }
    read_part(sheet, size.div_ceil(4) * 4)?;
    let sheet = sheet.get(..size).ok_or(Damaged)?;
    let main = main.get_mut(..word_at(header, 8) as usize).ok_or(Damaged)?;
    read_part(main, given)?;
    main.get_mut(given..).ok_or(Damaged)?.fill(0);
    let mut lent = memories.lend(
        word_at(header, 16) as usize,
        word_at(header, 20) as usize,
        word_at(header, 24) as usize,
    )?;
    check(out, header, sheet, main, &mut lent);
    Ok(())
}

// What cases run on: the sheet, main memory, and the unit's memories and the log.
#[derive(Drop)]
struct Buffers<'a> {
    sheet: &'a mut [u8],
    main: &'a mut [u8; MAIN],
    memories: Memories<'a>,
}

impl Case for Buffers<'_> {
    fn run(&mut self, out: &mut Output, header: &[u8]) -> Result<(), Damaged> {
        run_case(out, header, self.sheet, self.main, &mut self.memories)
    }
}

fn main() {
    let mut sheet = [0u8; 131088];
    let mut main = [0u8; MAIN];
    let mut data = [0u32; 4100];
    let mut code = [0u8; 16392];
    let mut log = [0u64; LOG_NUMBERS];
    let memories = Memories {
        data: &mut data,
        code: &mut code,
        log: &mut log,
    };
    let mut buffers = Buffers {
        sheet: &mut sheet,
        main: &mut main,
        memories,
    };
    run_cases(&mut StandardInput, &mut [0; 44], &mut buffers);
}
