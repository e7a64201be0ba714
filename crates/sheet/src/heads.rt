// Headers: of the first record, which says the edition, and of the item at a place.
ghost use Rattle.std.specs.Prelude.{◌≡◌, ◌+◌, ◌≤◌, length};
ghost use Rattle.fields.specs.Refusals.{refusal_in};
ghost use Rattle.sheet.specs.Header.{header};
ghost use Rattle.sheet.specs.Groups.{opens_kind, starts_second, opens_group, group_refusal, header_at};
ghost use Rattle.sheet.specs.Editions.{edition_refusal};
ghost use Rattle.sheet.specs.Acts.{first_item};

use super::reader::{address_at, byte_at, count_at, has_mark, read_record};
use super::{Item, SheetError};
use fields::Refusal;

// Whether a header of kind k stands whole at a place.
#[tactic(auto, unfolding(crate::specs::Groups::opens_kind))]
fn opens_kind(k: u32, sheet: &[u8], at: usize) -> bool
    ensures { result ≡ opens_kind k sheet.now at }
{
    at < sheet.len() && 6 <= sheet.len() - at && has_mark(sheet, at) && byte_at(sheet, at + 2) == k
}

// Whether the first record is of kind 0.
#[tactic(auto, unfolding(crate::specs::Groups::starts_second))]
pub(crate) fn starts_second(sheet: &[u8]) -> bool
    ensures { result ≡ starts_second sheet.now }
{
    opens_kind(0, sheet, 0)
}

// Where a sheet's items begin.
pub fn first_item(sheet: &[u8]) -> usize
    ensures { result ≡ first_item sheet.now }
{
    if starts_second(sheet) { 6 } else { 0 }
}

// Refuses a first record of kind 0 by its row.
pub(crate) fn test_edition(sheet: &[u8]) -> Result<(), Refusal>
    requires { 6 ≤ length sheet.now }
    ensures { refusal_in result ≡ edition_refusal sheet.now }
{
    if count_at(sheet, 0) != 2 {
        return Err(Refusal::CountWrong);
    }
    if address_at(sheet, 0) != 0 {
        return Err(Refusal::AddressWrong);
    }
    Ok(())
}

// Whether a group's header stands at a place.
#[tactic(auto, unfolding(crate::specs::Groups::opens_group))]
fn opens_group(sheet: &[u8], at: usize) -> bool
    ensures { result ≡ opens_group sheet.now at }
{
    opens_kind(5, sheet, at) && starts_second(sheet)
}

// Refuses a group's header.
fn test_group(sheet: &[u8], depth: u32, at: usize) -> Result<(), Refusal>
    requires { at + 6 ≤ length sheet.now }
    ensures { refusal_in result ≡ group_refusal depth sheet.now at }
{
    if count_at(sheet, at) == 0 {
        return Err(Refusal::CountWrong);
    }
    if address_at(sheet, at) == 0 {
        return Err(Refusal::AddressWrong);
    }
    if depth == 0 {
        return Err(Refusal::GroupDeep);
    }
    Ok(())
}

// What the header at a place says, where groups may stand so deep: None at the sheet's end. Inlined, as `read_record` is.
#[inline(always)]
pub fn read_header(sheet: &[u8], depth: u32, at: usize) -> Result<Option<Item>, SheetError>
    ensures { header result ≡ header_at sheet.now depth at }
{
    if !opens_group(sheet, at) {
        return Ok(read_record(sheet, at)?.map(Item::Single));
    }
    match test_group(sheet, depth, at) {
        Ok(()) => Ok(Some(Item::Group {
            repetitions: count_at(sheet, at),
            members: address_at(sheet, at),
        })),
        Err(refusal) => Err(SheetError {
            refusal,
            offset: at,
        }),
    }
}
