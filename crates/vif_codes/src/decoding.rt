// A word decoded into a code.
ghost use Rattle.std.specs.Prelude.{◌≡◌};
ghost use Rattle.vif_codes.specs.Codes.{direct_quadwords, plain_code, unpack_numbers, missing_code, code_listed, code_of, decode_of};
ghost use Rattle.vif_codes.specs.Decoded.{decoded};

use super::{Code, MPG_ADDRESSES, UnpackCode};
use fields::Refusal;
use memories::VifUnit;
use unpack_rules::ADDRESSES;

fn quadwords_of(imm: u32) -> u32
    ensures { result ≡ direct_quadwords imm }
{
    if imm == 0 { 65536 } else { imm }
}

fn plain_code(cmd: u32, num: u32, imm: u32) -> Result<Code, Refusal>
    ensures { decoded result ≡ plain_code cmd num imm }
{
    match cmd {
        0x00 => Ok(Code::Nop),
        0x01 => Ok(Code::Stcycl {
            cl: imm % 256,
            wl: imm / 256 % 256,
        }),
        0x02 => Ok(Code::Offset(imm % ADDRESSES)),
        0x03 => Ok(Code::Base(imm % ADDRESSES)),
        0x04 => Ok(Code::Itop(imm % ADDRESSES)),
        0x05 => Ok(Code::Stmod(imm % 4)),
        0x06 => Ok(Code::Mskpath3(imm / 32768 % 2 == 1)),
        0x07 => Ok(Code::Mark(imm)),
        0x10 => Ok(Code::Flushe),
        0x11 => Ok(Code::Flush),
        0x13 => Ok(Code::Flusha),
        0x14 => Ok(Code::Mscal(imm)),
        0x15 => Ok(Code::Mscalf(imm)),
        0x17 => Ok(Code::Mscnt),
        0x20 => Ok(Code::Stmask),
        0x30 => Ok(Code::Strow),
        0x31 => Ok(Code::Stcol),
        0x4a => Ok(Code::Mpg {
            address: imm % MPG_ADDRESSES,
            num,
        }),
        0x50 => Ok(Code::Direct(quadwords_of(imm))),
        0x51 => Ok(Code::Directhl(quadwords_of(imm))),
        _ => Err(Refusal::CmdUnlisted),
    }
}

fn unpack_numbers(cmd: u32, num: u32, imm: u32) -> UnpackCode
    ensures { result ≡ unpack_numbers cmd num imm }
{
    UnpackCode {
        address: imm % ADDRESSES,
        num,
        usn: imm / 16384 % 2 == 1,
        masked: cmd / 16 % 2 == 1,
        tops: imm / 32768 % 2 == 1,
    }
}

// The codes below 60h that VIF0 lacks.
#[tactic(auto, unfolding(crate::specs::Codes::missing_code))]
fn missing_code(cmd: u32) -> bool
    ensures { result ≡ missing_code cmd }
{
    matches!(cmd, 0x02 | 0x03 | 0x06 | 0x11 | 0x13 | 0x15 | 0x50 | 0x51)
}

// Whether a unit has a code below 60h.
pub(crate) fn code_listed(which: VifUnit, cmd: u32) -> bool
    ensures { result ≡ code_listed which cmd }
{
    match which {
        VifUnit::Vif0 => !missing_code(cmd),
        VifUnit::Vif1 => true,
    }
}

fn code_of(which: VifUnit, cmd: u32, num: u32, imm: u32) -> Result<Code, Refusal>
    ensures { decoded result ≡ code_of which cmd num imm }
{
    if 0x60 <= cmd {
        let f = unpack_rules::format_named(cmd % 16).ok_or(Refusal::FormatMissing)?;
        return Ok(Code::Unpack(f, unpack_numbers(cmd, num, imm)));
    }
    if code_listed(which, cmd) {
        plain_code(cmd, num, imm)
    } else {
        Err(Refusal::CmdUnlisted)
    }
}

// A word as a code of a unit, or the refusal of one that is not listed.
pub fn decode(which: VifUnit, word: u32) -> Result<Code, Refusal>
    ensures { decoded result ≡ decode_of which word }
{
    code_of(
        which,
        word / 0x0100_0000 % 128,
        word / 65536 % 256,
        word % 65536,
    )
}
