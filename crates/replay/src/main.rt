// Reads captures from standard input and writes what each call leaves (docs/FORMATS.md, "Captures").
#![tactic(auto)]

mod boards;
mod input;
mod run;
mod sums;
mod why;

use boards::Board;
use cases::{Case, Damaged, LOG_NUMBERS, StandardInput, run_cases};
use input::{header_right, read_calls, read_main};
use run::Running;
use wire::Output;

// The bytes that a case's calls and main memory may have.
const CALLS: usize = 1048560;

const MAIN: usize = 1048608;

// One case whose header was read, on its memories and on what they held before the last run.
fn run_case(
    out: &mut Output,
    header: &[u8],
    calls: &mut [u8; CALLS],
    main: &mut [u8; MAIN],
    now: &mut Board<'_>,
    before: &mut Board<'_>,
) -> Result<(), Damaged> {
    if !header_right(header) {
        return Err(Damaged);
    }
    let calls = read_calls(header, calls)?;
    let main = read_main(header, main)?;
    now.fill(header)?;
    before.fill(header)?;
    let mut running = Running::new(header);
    for call in calls.chunks_exact(16) {
        let channel = running.channel();
        let mut now = now.lend(header, channel)?;
        let mut before = before.lend(header, channel)?;
        running.call(out, call, main, &mut now, &mut before);
    }
    Ok(())
}

// What cases run on: the calls, main memory, the units' memories and the log, and what these held before the last run.
#[derive(Drop)]
struct Buffers<'a> {
    calls: &'a mut [u8; CALLS],
    main: &'a mut [u8; MAIN],
    now: Board<'a>,
    before: Board<'a>,
}

impl Case for Buffers<'_> {
    fn run(&mut self, out: &mut Output, header: &[u8]) -> Result<(), Damaged> {
        run_case(
            out,
            header,
            self.calls,
            self.main,
            &mut self.now,
            &mut self.before,
        )
    }
}

fn main() {
    let mut calls = [0u8; CALLS];
    let mut main = [0u8; MAIN];
    let mut data = [0u32; 4100];
    let mut code = [0u8; 16392];
    let mut small_data = [0u32; 1028];
    let mut small_code = [0u8; 4104];
    let mut log = [0u64; LOG_NUMBERS];
    let mut data_before = [0u32; 4100];
    let mut code_before = [0u8; 16392];
    let mut small_data_before = [0u32; 1028];
    let mut small_code_before = [0u8; 4104];
    let mut log_before = [0u64; LOG_NUMBERS];
    let now = Board {
        data: &mut data,
        code: &mut code,
        small_data: &mut small_data,
        small_code: &mut small_code,
        log: &mut log,
    };
    let before = Board {
        data: &mut data_before,
        code: &mut code_before,
        small_data: &mut small_data_before,
        small_code: &mut small_code_before,
        log: &mut log_before,
    };
    let mut buffers = Buffers {
        calls: &mut calls,
        main: &mut main,
        now,
        before,
    };
    run_cases(&mut StandardInput, &mut [0; 428], &mut buffers);
}
