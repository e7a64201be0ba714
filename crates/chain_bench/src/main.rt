// Runs a chain round after round, to be timed (docs/FORMATS.md, "Chain timing input").
#![tactic(auto)]

use cases::Memories;
use chain::Ending;
use chain_state::{State, reset, start};
use wire::{Output, word_at};

const LOG: usize = gif::LOG_MOST as usize;

// More than main memory may have, so that longer input is told.
const MAIN: usize = 1048561;

// The state, and over all rounds the steps and the runs that did not end with done.
#[derive(Clone, Copy)]
struct Total {
    state: State,
    steps: u64,
    stopped: u32,
}

impl Total {
    // One start and run, with no entries used.
    fn round(&mut self, main: &[u8], lent: &mut Memories<'_>, channel: u32) {
        let unused = State {
            used: 0,
            ..self.state
        };
        let begun = start(unused, channel, 0, false).unwrap_or(unused);
        let r = chain::run(main, lent.data, lent.code, lent.log, begun, u64::MAX);
        self.state = r.state;
        self.steps = self.steps.wrapping_add(r.counts.steps);
        if !matches!(r.answer, Ok(Ending::Done)) {
            self.stopped = self.stopped.wrapping_add(1);
        }
    }
}

fn time(main: &[u8], lent: &mut Memories<'_>, channel: u32, count: u32) {
    let mut total = Total {
        state: reset(),
        steps: 0,
        stopped: 0,
    };
    for _ in 0..count {
        total.round(main, lent, channel);
    }
    let mut out = Output::new();
    out.emit(total.steps);
    out.emit(total.stopped);
    out.emit(lent.sum());
    out.flush();
}

// The input whose header was read, where it has the length that it says.
fn begin(header: &[u8], main: &mut [u8; MAIN], memories: &mut Memories<'_>) {
    let channel = word_at(header, 4);
    let (words, bytes) = match channel {
        0 => (1024, 4096),
        1 | 2 => (4096, 16384),
        _ => return,
    };
    let size = 16 * word_at(header, 8) as usize;
    if size < 16 || main.len() <= size || io::read_full(0, main) != size {
        return;
    }
    if let Some(main) = main.get(..size)
        && let Ok(mut lent) = memories.lend(words, bytes, LOG)
    {
        time(main, &mut lent, channel, word_at(header, 0));
    }
}

fn main() {
    let mut header = [0u8; 12];
    let mut main = [0u8; MAIN];
    let mut data = [0u32; 4096];
    let mut code = [0u8; 16384];
    let mut log = [0u64; LOG];
    let mut memories = Memories {
        data: &mut data,
        code: &mut code,
        log: &mut log,
    };
    if io::read_full(0, &mut header) == 12 {
        begin(&header, &mut main, &mut memories);
    }
}
