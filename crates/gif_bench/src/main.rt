// Gives quadwords to a path round after round, to be timed (docs/FORMATS.md, "GIF timing input").
#![tactic(auto)]

use gif::{GifPath, Path};
use state_block::path_block;
use wire::{Output, long_at, word_at};

const LOG: usize = gif::LOG_MOST as usize;

// The most quadwords that are given in a round.
const MOST: usize = 16384;

#[derive(Clone, Copy)]
struct Running {
    path: Path,
    used: u64,
    refused: u32,
}

impl Running {
    // One quadword; a log that is nearly full is begun again.
    fn give(&mut self, low: u64, high: u64, log: &mut [u64]) {
        if 65000 < self.used {
            self.used = 0;
        }
        let r = gif::take_quadword(GifPath::Three, self.path, low, high, log, self.used);
        self.path = r.path;
        self.used = r.used;
        if r.answer.is_err() {
            self.refused = self.refused.wrapping_add(1);
        }
    }
}

// The low and the high half of each quadword.
fn read_quads(bytes: &[u8], quads: &mut [(u64, u64)]) {
    for (quad, bytes) in quads.iter_mut().zip(bytes.chunks_exact(16)) {
        *quad = (long_at(bytes, 0), long_at(bytes, 8));
    }
}

fn time(quads: &[(u64, u64)], log: &mut [u64], count: u32) {
    let mut running = Running {
        path: Path { q: 0, place: None },
        used: 0,
        refused: 0,
    };
    for _ in 0..count {
        for (low, high) in quads {
            running.give(*low, *high, log);
        }
    }
    let mut out = Output::new();
    out.emit(running.refused);
    out.emit(running.used);
    out.emit_all(&path_block(running.path));
    out.emit(cases::sum(log));
    out.flush();
}

// The input that was read, where it has the length that it says.
fn begin(bytes: &[u8], quads: &mut [(u64, u64)], log: &mut [u64]) {
    let count = word_at(bytes, 4) as usize;
    if count < 1 || bytes.len() != 8 + 16 * count {
        return;
    }
    if let Some(quads) = quads.get_mut(..count) {
        read_quads(&bytes[8..], quads);
        time(quads, log, word_at(bytes, 0));
    }
}

fn main() {
    let mut bytes = [0u8; 262153];
    let mut quads = [(0, 0); MOST];
    let mut log = [0u64; LOG];
    let got = io::read_full(0, &mut bytes);
    begin(&bytes[..got], &mut quads, &mut log);
}
