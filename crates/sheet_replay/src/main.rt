// Reads sheet cases from standard input and writes the four parts of each (docs/FORMATS.md, "Sheet cases").
#![tactic(auto)]

mod parts;
mod play;

use cases::{Case, Damaged, LOG_NUMBERS, Memories, StandardInput, read_part, run_cases};
use parts::{tell_build, tell_meaning, tell_steps};
use play::tell_play;
use wire::{Output, word_at};

// The bytes that main memory, or the output of a chain, may have here, more than a run or a chain takes.
const MOST: usize = 1048608;

// One case whose header was read.
fn run_case(
    out: &mut Output,
    header: &[u8],
    sheet: &mut [u8],
    output: &mut [u8; MOST],
    main: &mut [u8; MOST],
    memories: &mut Memories<'_>,
) -> Result<(), Damaged> {
    let size = word_at(header, 4) as usize;
    if word_at(header, 0) != 0x33485354 {
        return Err(Damaged);
    }
    read_part(sheet, size.div_ceil(4) * 4)?;
    let sheet = sheet.get(..size).ok_or(Damaged)?;
    let output = output
        .get_mut(..word_at(header, 8) as usize)
        .ok_or(Damaged)?;
    let main = main.get_mut(..word_at(header, 12) as usize).ok_or(Damaged)?;
    let mut lent = memories.lend(
        word_at(header, 20) as usize,
        word_at(header, 24) as usize,
        word_at(header, 28) as usize,
    )?;
    tell_build(out, header, sheet, output);
    tell_steps(out, sheet);
    tell_meaning(out, header, sheet, &mut lent);
    tell_play(out, header, sheet, main, &mut lent);
    Ok(())
}

// What cases run on: the sheet, the chain built, main memory, and the unit's memories and the log.
#[derive(Drop)]
struct Buffers<'a> {
    sheet: &'a mut [u8],
    output: &'a mut [u8; MOST],
    main: &'a mut [u8; MOST],
    memories: Memories<'a>,
}

impl Case for Buffers<'_> {
    fn run(&mut self, out: &mut Output, header: &[u8]) -> Result<(), Damaged> {
        run_case(
            out,
            header,
            self.sheet,
            self.output,
            self.main,
            &mut self.memories,
        )
    }
}

fn main() {
    let mut sheet = [0u8; 131088];
    let mut output = [0u8; MOST];
    let mut main = [0u8; MOST];
    let mut data = [0u32; 4100];
    let mut code = [0u8; 16392];
    let mut log = [0u64; LOG_NUMBERS];
    let memories = Memories {
        data: &mut data,
        code: &mut code,
        log: &mut log,
    };
    let mut buffers = Buffers {
        sheet: &mut sheet,
        output: &mut output,
        main: &mut main,
        memories,
    };
    run_cases(&mut StandardInput, &mut [0; 428], &mut buffers);
}
