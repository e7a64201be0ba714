// The sums of a sheet of either edition, and its steps.
ghost use Rattle.std.specs.Prelude.{◌≡◌};
ghost use Rattle.sheet.specs.Editions.{expansion_from, limited, contents_of};
ghost use Rattle.sheet.specs.Results.{steps_of_sheet};
ghost use Rattle.sheet.specs.Measured.{measured};
ghost use Rattle.sheet.specs.StepsAnswer.{steps_answer};
ghost use Rattle.sheet.specs.Sums.{measured_of, within};

use super::heads::{first_item, starts_second, test_edition};
use super::items::read_item;
use super::sums::Totals;
use super::{LONGEST, LONGEST_CHAIN, SheetError};
use fields::Refusal;

// 49 where the chain would be longer than 1,048,576 bytes.
fn within(t: Totals) -> Result<Totals, SheetError>
    ensures { measured result ≡ within t }
{
    if LONGEST_CHAIN / 16 < t.quadwords {
        return Err(Refusal::ChainLong.into());
    }
    Ok(t)
}

// The sums of the items from a place on, or the refusal.
fn measure_items(sheet: &[u8], first: usize) -> Result<Totals, SheetError>
    ensures { measured result ≡ measured_of (limited (expansion_from sheet.now first)) }
{
    let mut sum = Totals::NONE;
    let mut at = first;
    while let Some(item) = read_item(sheet, 8, at)? {
        sum = sum.joined(item.totals);
        at = item.next;
    }
    within(sum.joined(Totals::END_TAG))
}

// The sums of a sheet, or its refusal.
pub fn measure(sheet: &[u8]) -> Result<Totals, SheetError>
    ensures { measured result ≡ measured_of (contents_of sheet.now) }
{
    if LONGEST < sheet.len() {
        return Err(Refusal::SheetLong.into());
    }
    if starts_second(sheet) {
        test_edition(sheet)?;
    }
    measure_items(sheet, first_item(sheet))
}

// The steps of a sheet, or its refusal.
pub fn steps(sheet: &[u8]) -> Result<u64, SheetError>
    ensures { steps_answer result ≡ steps_of_sheet sheet.now }
{
    Ok(measure(sheet)?.steps)
}
