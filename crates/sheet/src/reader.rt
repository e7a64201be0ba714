// The record reader.
ghost use Rattle.std.specs.Prelude.{◌≡◌, ◌+◌, ◌*◌, ◌<◌, ◌≤◌, length, get_or};
ghost use Rattle.fields.specs.Fields.{if};
ghost use Rattle.sheet.specs.Records.{count_fits, address_fits, body_length, zeros_at, pads_zero, pads_fit};
ghost use Rattle.sheet.specs.Reader.{marked, kind_listed, kind_of, count_at, address_at, reading_at};
ghost use Rattle.sheet.specs.Reading.{reading, reading_of};

use super::{Kind, Record, SheetError};
use fields::Refusal;

pub(crate) fn byte_at(sheet: &[u8], at: usize) -> u32
    requires { at < length sheet.now }
    ensures { (result ≡ get_or sheet.now at 0) × (result < 256) }
{
    u32::from(sheet[at])
}

#[tactic(auto, unfolding(crate::specs::Reader::marked))]
pub(crate) fn has_mark(sheet: &[u8], at: usize) -> bool
    requires { at + 6 ≤ length sheet.now }
    ensures { result ≡ marked sheet.now at }
{
    sheet[at] == 0x9E && sheet[at + 1] == 0x51
}

pub(crate) fn count_at(sheet: &[u8], at: usize) -> u32
    requires { at + 6 ≤ length sheet.now }
    ensures { result ≡ count_at sheet.now at }
{
    byte_at(sheet, at + 3)
}

pub(crate) fn address_at(sheet: &[u8], at: usize) -> u32
    requires { at + 6 ≤ length sheet.now }
    ensures { result ≡ address_at sheet.now at }
{
    u32::from(u16::from_le_bytes([sheet[at + 4], sheet[at + 5]]))
}

// The kind of a number, or the refusal of a number that is none.
fn kind_of(k: u32) -> Result<Kind, Refusal>
    ensures { result ≡ if (kind_listed k) (Ok (kind_of k)) (Err Refusal.KindWrong) }
{
    match k {
        1 => Ok(Kind::Data),
        2 => Ok(Kind::Code),
        3 => Ok(Kind::Gs),
        4 => Ok(Kind::Start),
        _ => Err(Refusal::KindWrong),
    }
}

fn count_fits(kind: Kind, n: u32) -> bool
    ensures { result ≡ count_fits kind n }
{
    match kind {
        Kind::Data | Kind::Code | Kind::Gs => 1 <= n && n <= 255,
        Kind::Start => n == 0,
    }
}

fn address_fits(kind: Kind, a: u32) -> bool
    ensures { result ≡ address_fits kind a }
{
    match kind {
        Kind::Data => a < memories::VIF1_QUADWORDS,
        Kind::Code | Kind::Start => a < memories::VIF1_INSTRUCTIONS,
        Kind::Gs => a == 0,
    }
}

pub fn body_length(kind: Kind, n: u32) -> usize
    ensures { result ≡ body_length kind n }
{
    let count = n as usize;
    match kind {
        Kind::Data | Kind::Gs => 16 * count,
        Kind::Code => 8 * count,
        Kind::Start => 0,
    }
}

// Whether n bytes from a place on are zero.
fn zeros_at(sheet: &[u8], at: usize, n: usize) -> bool
    requires { at + n ≤ length sheet.now }
    ensures { result ≡ zeros_at sheet.now at n }
{
    sheet[at..at + n].iter().all(|b| *b == 0)
}

// Whether the zeros of n entries are zero.
fn pads_zero(sheet: &[u8], at: usize, n: usize) -> bool
    requires { at + 16 * n ≤ length sheet.now }
    ensures { result ≡ pads_zero sheet.now at n }
{
    for j in 0..n {
        if !zeros_at(sheet, at + 16 * j + 9, 7) {
            return false;
        }
    }
    true
}

#[inline(always)]
fn pads_fit(kind: Kind, sheet: &[u8], at: usize, n: u32) -> bool
    requires { at + body_length kind n ≤ length sheet.now }
    ensures { result ≡ pads_fit kind sheet.now at n }
{
    match kind {
        Kind::Gs => pads_zero(sheet, at, n as usize),
        _ => true,
    }
}

// The record at a place of a sheet, or its refusal.
#[inline(always)]
fn record_at(sheet: &[u8], at: usize) -> Result<Record, Refusal>
    requires { at < length sheet.now }
    ensures { reading_of at result ≡ reading_at sheet.now at }
{
    if sheet.len() - at < 6 {
        return Err(Refusal::RecordCut);
    }
    if !has_mark(sheet, at) {
        return Err(Refusal::MarkWrong);
    }
    let kind = kind_of(byte_at(sheet, at + 2))?;
    let count = count_at(sheet, at);
    let address = address_at(sheet, at);
    if !count_fits(kind, count) {
        return Err(Refusal::CountWrong);
    }
    if !address_fits(kind, address) {
        return Err(Refusal::AddressWrong);
    }
    let next = at + 6 + body_length(kind, count);
    if sheet.len() < next {
        return Err(Refusal::RecordCut);
    }
    if !pads_fit(kind, sheet, at + 6, count) {
        return Err(Refusal::PadWrong);
    }
    Ok(Record {
        kind,
        count,
        address,
        next,
    })
}

// What stands at a place of a sheet; a place past the sheet is the end. It and its parts are inlined, so that a record that is read is not stored and loaded again.
#[inline(always)]
pub fn read_record(sheet: &[u8], at: usize) -> Result<Option<Record>, SheetError>
    ensures { reading result ≡ reading_at sheet.now at }
{
    if sheet.len() <= at {
        return Ok(None);
    }
    match record_at(sheet, at) {
        Ok(record) => Ok(Some(record)),
        Err(refusal) => Err(SheetError {
            refusal,
            offset: at,
        }),
    }
}
