// What a refusal of a VIF unit shows: request 6's contents of the field at fault. What each function means is said by the definitions of specs/.
#![tactic(auto)]

ghost use Rattle.std.specs.Prelude.{◌≡◌};
ghost use Rattle.gif_reason.specs.Reason.{numbers};
ghost use Rattle.vif_reason.specs.Reason.{word_number, code_numbers, direct_numbers, word_numbers};

use fields::Refusal;
use gif::Path;
use gif_reason::{Numbers, free_entries, quadword_numbers};
use vif_codes::{Incoming, Vif, Waiting};

fn one(n: u64) -> Numbers
    ensures { result ≡ numbers n 0 }
{
    Numbers {
        first: n,
        second: 0,
    }
}

fn word_number(next: Incoming) -> u64
    ensures { result ≡ word_number next }
{
    match next {
        Incoming::Word0(..) => 0,
        Incoming::Word1(_) => 1,
        Incoming::Word2(_) => 2,
        Incoming::Word3(_) => 3,
    }
}

// Of a code's own step.
fn code_numbers(refusal: u32, word: u32, unit: Vif, needed: u64, log: &[u64], used: u64) -> Numbers
    ensures { result ≡ code_numbers refusal word unit needed used log.now }
{
    if refusal == Refusal::CmdUnlisted.number() {
        one((word / 0x0100_0000 % 128) as u64)
    } else if refusal == Refusal::FormatMissing.number() {
        one((word / 0x0100_0000 % 128 / 4 % 4) as u64)
    } else if refusal == Refusal::CycleWrong.number() {
        one(unit.wl as u64)
    } else if refusal == Refusal::ModeWrong.number() {
        one((word % 4) as u64)
    } else if refusal == Refusal::TopsMissing.number() {
        one((word / 32768 % 2) as u64)
    } else if refusal == Refusal::LogFull.number() {
        Numbers {
            first: free_entries(log, used),
            second: needed,
        }
    } else {
        one(0)
    }
}

// Of a word that comes while DIRECT or DIRECTHL waits.
fn direct_numbers(
    refusal: u32,
    next: Incoming,
    path2: Path,
    needed: u64,
    log: &[u64],
    used: u64,
) -> Numbers
    ensures { result ≡ direct_numbers refusal next path2 needed used log.now }
{
    match next {
        Incoming::Word0(..) => quadword_numbers(refusal, path2, needed, log, used),
        _ => one(word_number(next)),
    }
}

// What a refusal of the next word shows, by its number, which may be any; `needed` is the number of entries that its step needs.
#[tactic(auto, unfolding(crate::specs::Reason::word_numbers))]
pub fn word_numbers(
    refusal: u32,
    unit: Vif,
    path2: Path,
    next: Incoming,
    needed: u64,
    log: &[u64],
    used: u64,
) -> Numbers
    ensures { result ≡ word_numbers refusal unit path2 next needed used log.now }
{
    match unit.waiting {
        Waiting::Nothing => code_numbers(refusal, next.word(), unit, needed, log, used),
        Waiting::MpgDue { .. } => one(word_number(next)),
        Waiting::DirectDue { .. } => direct_numbers(refusal, next, path2, needed, log, used),
        Waiting::DirecthlDue { .. } => direct_numbers(refusal, next, path2, needed, log, used),
        _ => one(0),
    }
}
