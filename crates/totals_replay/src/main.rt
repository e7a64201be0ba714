// Reads totals cases from standard input and writes what each addition leaves (docs/FORMATS.md, "Totals cases").
#![tactic(auto)]

use cases::{Case, Damaged, StandardInput, read_part, run_cases};
use fields::Refusal;
use totals::{Totals, add_totals, counts_from, nop_share, totals_from};
use wire::{Output, long_at, word_at};

// The most additions of a case, of twelve numbers each.
const MOST: usize = 65535;

const NUMBERS: usize = 12 * MOST;

// The numbers of a part of a case, one after another.
fn read_longs(bytes: &[u8], longs: &mut [u64]) {
    for (long, bytes) in longs.iter_mut().zip(bytes.chunks_exact(8)) {
        *long = long_at(bytes, 0);
    }
}

// Reads the counts of a case's additions, if they are all there.
fn read_counts(numbers: &mut [u64]) -> Result<(), Damaged> {
    let mut part = [0u8; 96];
    for longs in numbers.chunks_mut(12) {
        read_part(&mut part, 96)?;
        read_longs(&part, longs);
    }
    Ok(())
}

// What an addition leaves: its answer, the totals and their NOP share.
fn tell(out: &mut Output, answer: u32, t: Totals) {
    let share = nop_share(t);
    out.emit(answer);
    out.emit_all(&[t.packets, t.words, t.nops]);
    out.emit_all(&[t.qwc.id0, t.qwc.id1, t.qwc.id2, t.qwc.id3]);
    out.emit_all(&[t.qwc.id4, t.qwc.id5, t.qwc.id6, t.qwc.id7]);
    out.emit_all(&[share.nops, share.words]);
}

// The additions of a case, each on what the one before left.
fn add_all(out: &mut Output, first: Totals, numbers: &[u64]) {
    let mut sums = first;
    for counts in numbers.chunks_exact(12) {
        match add_totals(sums, counts_from(counts)) {
            Ok(totals) => {
                sums = totals;
                tell(out, 0, sums);
            }
            Err(refusal) => tell(out, refusal.number(), sums),
        }
    }
}

// One case whose header was read.
fn run_case(out: &mut Output, header: &[u8], numbers: &mut [u64]) -> Result<(), Damaged> {
    let count = word_at(header, 4) as usize;
    if word_at(header, 0) != 0x314F5454 {
        return Err(Damaged);
    }
    let numbers = numbers.get_mut(..12 * count).ok_or(Damaged)?;
    read_counts(numbers)?;
    let mut longs = [0; 12];
    read_longs(header, &mut longs);
    add_all(out, totals_from(&longs[1..]), numbers);
    Ok(())
}

// What cases run on: the numbers of their additions.
#[derive(Drop)]
struct Numbers<'a> {
    numbers: &'a mut [u64; NUMBERS],
}

impl Case for Numbers<'_> {
    fn run(&mut self, out: &mut Output, header: &[u8]) -> Result<(), Damaged> {
        run_case(out, header, self.numbers)
    }
}

fn main() {
    let mut numbers = [0u64; NUMBERS];
    let mut lent = Numbers {
        numbers: &mut numbers,
    };
    run_cases(&mut StandardInput, &mut [0; 96], &mut lent);
}
