// A sheet read from offset 0: what is kept and what is dropped.
ghost use Rattle.std.specs.Prelude.{◌≡◌, ◌≤◌, length};
ghost use Rattle.sheet.specs.Records.{longest};
ghost use Rattle.salvage.specs.Inner.{range_end, sums_of};

use super::Sums;
use sheet::read_record;

// The first place from this one on where a record starts, or the sheet's end.
pub(crate) fn range_end(sheet: &[u8], from: usize) -> usize
    ensures { result ≡ range_end sheet.now from }
{
    let mut end = from;
    while read_record(sheet, end).is_err() {
        end += 1;
    }
    end
}

// The bytes that are kept of a sheet, and its dropped ranges.
pub(crate) fn measure(sheet: &[u8]) -> Sums
    requires { length sheet.now ≤ longest }
    ensures { result ≡ sums_of sheet.now }
{
    let mut sums = Sums {
        bytes: 0,
        ranges: 0,
    };
    let mut at = 0;
    loop {
        match read_record(sheet, at) {
            Ok(None) => return sums,
            Ok(Some(record)) => {
                sums.bytes += record.next - at;
                at = record.next;
            }
            Err(_) => {
                sums.ranges += 1;
                at = range_end(sheet, at + 1);
            }
        }
    }
}
