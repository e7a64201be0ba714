// The record reader and the group reader, which call each other.
ghost use Rattle.std.specs.Prelude.{◌≡◌, length};
ghost use Rattle.sheet.specs.Groups.{item_at, group_from};
ghost use Rattle.sheet.specs.ItemAnswer.{item_answer, some_answer};
ghost use Rattle.sheet.specs.Sums.{answered};

use super::heads::read_header;
use super::sums::Totals;
use super::{Item, SheetError};
use fields::Refusal;

// An item's sums, and the place after it.
#[derive(Clone, Copy)]
pub(crate) struct ItemTotals {
    pub next: usize,
    pub totals: Totals,
}

// What stands at a place of a sheet, where groups may stand so deep: None at the sheet's end or past it.
#[cycle(read_group_read_item)]
pub(crate) fn read_item(
    sheet: &[u8],
    depth: u32,
    at: usize,
) -> Result<Option<ItemTotals>, SheetError>
    ensures { item_answer result ≡ answered (item_at sheet.now depth at) }
{
    match read_header(sheet, depth, at)? {
        None => Ok(None),
        Some(Item::Single(record)) => Ok(Some(ItemTotals {
            next: record.next,
            totals: Totals::of_record(record.kind, record.count),
        })),
        Some(
            Item::Group {
                repetitions,
                members,
            },
        ) => {
            let group = read_group(sheet, depth - 1, at + 6, repetitions, members)?;
            Ok(Some(group))
        }
    }
}

// The group of so many repetitions whose members stand from a place on.
#[cycle(read_group_read_item)]
fn read_group(
    sheet: &[u8],
    depth: u32,
    at: usize,
    repetitions: u32,
    members: u32,
) -> Result<ItemTotals, SheetError>
    ensures { some_answer result ≡ answered (group_from (item_at sheet.now depth) (length sheet.now) at repetitions members) }
{
    let mut sum = Totals::NONE;
    let mut next = at;
    for _member in 0..members {
        let Some(item) = read_item(sheet, depth, next)? else {
            return Err(SheetError {
                refusal: Refusal::RecordCut,
                offset: sheet.len(),
            });
        };
        sum = sum.joined(item.totals);
        next = item.next;
    }
    Ok(ItemTotals {
        next,
        totals: sum.scaled(repetitions),
    })
}
