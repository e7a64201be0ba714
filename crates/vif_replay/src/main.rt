// Reads VIF cases from standard input and writes what each group of calls leaves (docs/FORMATS.md, "VIF cases").
#![tactic(auto)]

mod input;
mod run;

use cases::{Case, Damaged, LOG_NUMBERS, Memories, StandardInput, run_cases};
use input::{header_right, read_input};
use run::Running;
use wire::{Output, long_at, word_at};

// The most words after a header: the groups' lengths, and the calls' words.
const INPUT_WORDS: usize = 327680;

// One case whose header was read, on its memories and on what they held before a group.
fn run_case(
    out: &mut Output,
    header: &[u8],
    input: &mut [u32],
    now: &mut Memories<'_>,
    before: &mut Memories<'_>,
) -> Result<(), Damaged> {
    if !header_right(header) {
        return Err(Damaged);
    }
    let groups = word_at(header, 200) as usize;
    let count = word_at(header, 204) as usize;
    let input = input.get_mut(..groups + count).ok_or(Damaged)?;
    read_input(input)?;
    let (lengths, words) = input.split_at(groups);
    if lengths.iter().any(|length| 65535 < *length) {
        return Err(Damaged);
    }
    let data = word_at(header, 4) as usize;
    let code = word_at(header, 8) as usize;
    let log = word_at(header, 12) as usize;
    let mut now = now.lend(data, code, log)?;
    let mut before = before.lend(data, code, log)?;
    let fill = long_at(header, 24);
    now.fill(fill);
    before.fill(fill);
    let mut running = Running::new(header, words);
    for length in lengths {
        running.take_group(out, *length, &mut now);
        running.tell(out);
        now.tell(&mut before, out);
        running.read_back();
    }
    Ok(())
}

// What cases run on: the words after a header, the memories, and what these held before a group.
#[derive(Drop)]
struct Buffers<'a> {
    input: &'a mut [u32],
    now: Memories<'a>,
    before: Memories<'a>,
}

impl Case for Buffers<'_> {
    fn run(&mut self, out: &mut Output, header: &[u8]) -> Result<(), Damaged> {
        run_case(out, header, self.input, &mut self.now, &mut self.before)
    }
}

fn main() {
    let mut input = [0u32; INPUT_WORDS];
    let mut data = [0u32; 4100];
    let mut code = [0u8; 16392];
    let mut log = [0u64; LOG_NUMBERS];
    let mut data_before = [0u32; 4100];
    let mut code_before = [0u8; 16392];
    let mut log_before = [0u64; LOG_NUMBERS];
    let now = Memories {
        data: &mut data,
        code: &mut code,
        log: &mut log,
    };
    let before = Memories {
        data: &mut data_before,
        code: &mut code_before,
        log: &mut log_before,
    };
    let mut buffers = Buffers {
        input: &mut input,
        now,
        before,
    };
    run_cases(&mut StandardInput, &mut [0; 212], &mut buffers);
}
