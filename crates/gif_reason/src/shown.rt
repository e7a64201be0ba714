// What a quadword's refusal shows.
ghost use Rattle.std.specs.Prelude.{◌≡◌};
ghost use Rattle.gif_reason.specs.Reason.{free_entries, quadword_numbers};

use super::Numbers;
use fields::Refusal;
use gif::{ENTRY_SIZE, Path, met_descriptor};

// The log entries that are free.
pub fn free_entries(log: &[u64], used: u64) -> u64
    ensures { result ≡ free_entries log.now used }
{
    (log.len() as u64 / ENTRY_SIZE).saturating_sub(used)
}

// What a refusal of a quadword shows, by its number, which may be any; `needed` is the number of entries that its step needs.
pub fn quadword_numbers(refusal: u32, path: Path, needed: u64, log: &[u64], used: u64) -> Numbers
    ensures { result ≡ quadword_numbers refusal path needed used log.now }
{
    if refusal == Refusal::DescriptorB.number() {
        Numbers {
            first: met_descriptor(path),
            second: 0,
        }
    } else if refusal == Refusal::LogFull.number() {
        Numbers {
            first: free_entries(log, used),
            second: needed,
        }
    } else {
        Numbers {
            first: 0,
            second: 0,
        }
    }
}
