// Cases read from standard input one after another.
ghost use Rattle.std.specs.Prelude.{◌≡◌, ◌≤◌, ℕ, List, length, replicate, Result};
ghost use Rattle.wire.specs.declared.Output.{Output};
ghost use Rattle.wire.specs.Words.{sent};
ghost use Rattle.cases.specs.declared.run.Damaged.{Damaged};
ghost use Rattle.cases.specs.Runs.{Runs};

use wire::Output;

// What a case is that is not right, or not whole.
#[derive(Clone, Copy, Debug, PartialEq, Eq)]
pub struct Damaged;

// Where headers are read from.
pub trait Headers {
    // What a read may leave: of the source and the buffer before it, how many bytes were read, and the source and the buffer after it.
    ghost got: { Self → List ℕ → ℕ → Self → List ℕ → Type 0 };

    // Fills a header's buffer from its start, and says how many bytes were read: none at the end.
    fn read(&mut self, header: &mut [u8]) -> usize
        ensures { got self.old header.old result self.new header.new };
}

// Standard input.
#[derive(Drop)]
pub struct StandardInput;

impl Headers for StandardInput {
    ghost got = { λ _ _ n _ read. n ≤ length read };

    #[inline(always)]
    fn read(&mut self, header: &mut [u8]) -> usize {
        io::read_full(0, header)
    }
}

// What cases are run on, and how one of them is run.
pub trait Case {
    // What a case may leave: what it is run on and the results before, its header, its answer, and both after.
    ghost ran: { Self → Output → List ℕ → Result Unit Damaged → Self → Output → Type 0 } = { λ _ _ _ _ _ _. Unit {0} };

    // Runs the case whose header was read.
    fn run(&mut self, out: &mut Output, header: &[u8]) -> Result<(), Damaged>
        ensures { ran self.old out.old header.now result self.new out.new };
}

// Writes out the results, and the line about a damaged case.
fn tell_damaged(out: &mut Output, number: u64)
    ensures { out.new ≡ sent out.old.out 0 }
{
    out.flush();
    io::write_all(1, b"damaged case ");
    io::print_decimal(1, number);
    io::write_all(1, b"\n");
}

// Reads headers, as long as the buffer, and runs each one's case, to the end of the input or the first damaged case. Inlined, as the programs' `run` is, so that
// the buffers are seen to lie apart: else what was kept of a log is copied number by number.
#[inline(always)]
pub fn run_cases<H: Headers, C: Case>(headers: &mut H, header: &mut [u8], case: &mut C)
    ensures size { length header.new ≡ length header.old }
    ensures in_turn { Runs H.got C.ran 0 headers.old header.old case.old (sent (replicate 65536 0) 0) headers.new header.new case.new }
{
    let mut out = Output::new();
    for number in 0..u64::MAX {
        let got = headers.read(header);
        if got == 0 {
            out.flush();
            return;
        }
        if got < header.len() || case.run(&mut out, header).is_err() {
            tell_damaged(&mut out, number);
            return;
        }
    }
}
