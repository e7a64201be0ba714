// Reads GIF cases from standard input and writes what each quadword leaves (docs/FORMATS.md, "GIF cases").
#![tactic(auto)]

use cases::{
    Case, Damaged, LOG_NUMBERS, StandardInput, fill, read_part, run_cases, tell, words_at,
};
use fields::Refusal;
use gif::{GifPath, Path};
use state_block::{PATH_WORDS, path_block, path_given, path_in_block};
use wire::{Output, long_at, word_at};

// What is given to the next quadword, and the case's block.
#[derive(Clone, Copy)]
struct Running {
    which: GifPath,
    path: Path,
    used: u64,
    block: [u32; PATH_WORDS],
}

fn number_of(answer: Result<bool, Refusal>) -> u32 {
    match answer {
        Ok(true) => 512,
        Ok(false) => 0,
        Err(refusal) => refusal.number(),
    }
}

fn path_named(number: u32) -> Option<GifPath> {
    match number {
        2 => Some(GifPath::Two),
        3 => Some(GifPath::Three),
        _ => None,
    }
}

impl Running {
    // What a case starts from. A block that is no path's stands for a path out of range.
    fn new(header: &[u8], which: GifPath) -> Running {
        let block = words_at(header, 32);
        Running {
            which,
            path: path_given(&block),
            used: long_at(header, 12),
            block,
        }
    }

    // The block that a result shows: one that is no path's as it was given.
    fn shown(&self) -> [u32; PATH_WORDS] {
        match path_in_block(&self.block) {
            Some(_) => path_block(self.path),
            None => self.block,
        }
    }

    // One quadword, and its result.
    fn give(&mut self, out: &mut Output, quad: &[u8], log: &mut [u64], before: &mut [u64]) {
        let low = long_at(quad, 0);
        let high = long_at(quad, 8);
        let r = gif::take_quadword(self.which, self.path, low, high, log, self.used);
        self.path = r.path;
        self.used = r.used;
        out.emit(number_of(r.answer));
        out.emit(r.used);
        out.emit_all(&self.shown());
        tell(out, log, before);
    }
}

// One case whose header was read, on its log and on what that held before a quadword.
#[inline(always)]
fn run_case(
    out: &mut Output,
    header: &[u8],
    log: &mut [u64],
    before: &mut [u64],
) -> Result<(), Damaged> {
    let count = word_at(header, 4);
    let size = word_at(header, 8) as usize;
    if word_at(header, 0) != 0x32494754 || 65535 < count {
        return Err(Damaged);
    }
    let which = path_named(word_at(header, 28)).ok_or(Damaged)?;
    let log = log.get_mut(..size).ok_or(Damaged)?;
    let before = before.get_mut(..size).ok_or(Damaged)?;
    let first = long_at(header, 20);
    fill(log, first);
    fill(before, first);
    let mut running = Running::new(header, which);
    for _ in 0..count {
        let mut quad = [0; 16];
        read_part(&mut quad, 16)?;
        running.give(out, &quad, log, before);
    }
    Ok(())
}

// What cases run on: the log, and what it held before a quadword.
#[derive(Drop)]
struct Logs<'a> {
    log: &'a mut [u64],
    before: &'a mut [u64],
}

impl Case for Logs<'_> {
    #[inline(always)]
    fn run(&mut self, out: &mut Output, header: &[u8]) -> Result<(), Damaged> {
        run_case(out, header, self.log, self.before)
    }
}

fn main() {
    let mut log = [0u64; LOG_NUMBERS];
    let mut before = [0u64; LOG_NUMBERS];
    let mut logs = Logs {
        log: &mut log,
        before: &mut before,
    };
    run_cases(&mut StandardInput, &mut [0; 68], &mut logs);
}
