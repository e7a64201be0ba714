// The kept records and the dropped ranges, written.
ghost use Rattle.std.specs.Prelude.{◌≡◌, ◌≤◌, length};
ghost use Rattle.std.proofs.lemmas.List.Edits.{sets};
ghost use Rattle.salvage.specs.SalvageAnswer.{salvage_answer};
ghost use Rattle.salvage.specs.Salvage.{left, kept_bytes, dropped_ranges, numbers_of, salvage_of};
ghost use Rattle.salvage.specs.Inner.{Room};

use super::Sums;
use super::reading::{measure, range_end};
use fields::Refusal;
use sheet::{LONGEST, read_record};

// Copies bytes, a loop by itself: by `copy_from_slice` the library for C would ask for memmove.
fn copy_bytes(from: &[u8], to: &mut [u8])
    requires { length from.now ≡ length to.old }
    ensures { to.new ≡ from.now }
{
    for i in 0..from.len() {
        to[i] = from[i];
    }
}

// Writes what is kept and what is dropped of a sheet, where there is room for it.
fn write(sheet: &[u8], output: &mut [u8], ranges: &mut [u64])
    requires { Room sheet.now output.old ranges.old }
    ensures { (output.new
        ≡ sets output.old 0 (kept_bytes sheet.now))
        × (ranges.new
        ≡ sets ranges.old 0 (numbers_of (dropped_ranges sheet.now))) }
{
    let mut at = 0;
    let mut bytes = 0;
    let mut numbers = 0;
    loop {
        match read_record(sheet, at) {
            Ok(None) => return,
            Ok(Some(record)) => {
                let size = record.next - at;
                copy_bytes(&sheet[at..at + size], &mut output[bytes..bytes + size]);
                bytes += size;
                at = record.next;
            }
            Err(_) => {
                let end = range_end(sheet, at + 1);
                ranges[numbers..numbers + 2].copy_from_slice(&[at as u64, (end - at) as u64]);
                numbers += 2;
                at = end;
            }
        }
    }
}

// Salvages a sheet. A refusal leaves both buffers as they are.
pub fn salvage(sheet: &[u8], output: &mut [u8], ranges: &mut [u64]) -> Result<Sums, Refusal>
    ensures { left (salvage_answer result) output.new ranges.new
        ≡ salvage_of sheet.now output.old ranges.old }
{
    if LONGEST < sheet.len() {
        return Err(Refusal::SheetLong);
    }
    let sums = measure(sheet);
    if output.len() < sums.bytes {
        return Err(Refusal::KeptExceed);
    }
    if ranges.len() / 2 < sums.ranges {
        return Err(Refusal::RangesExceed);
    }
    write(sheet, output, ranges);
    Ok(sums)
}
