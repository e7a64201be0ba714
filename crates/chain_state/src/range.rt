// The ranges behind refusal 5, and the entry refusals.
ghost use Rattle.std.specs.Prelude.{◌≡◌, not, ◌&&◌, ◌||◌, ◌+◌, ◌*◌, ◌%◌, eqb, leb};
ghost use Rattle.fields.specs.Refusals.{refusal_in};
ghost use Rattle.gif.specs.Range.{path_in_range};
ghost use Rattle.memories.specs.declared.VifUnit.TheVariants.{Vif0, Vif1};
ghost use Rattle.memories.specs.Lengths.{lent};
ghost use Rattle.vif_codes.specs.Range.{unit_in_range};
ghost use Rattle.chain_state.specs.Range.{unit_of, channel_in_range, start_in_range, entry_in_range, stack_in_range, tag_word_in_range, tags_in_range, words_in_range, payload_in_range, state_in_range, main_refused, tags_inside, payload_inside, entry_refusal};

use super::{Payload, Stack, State};
use fields::{MAIN_MOST, Refusal};
use memories::{VifUnit, test_lengths};

// The unit by the channel.
pub fn unit_of(channel: u32) -> VifUnit
    ensures { result ≡ unit_of channel }
{
    if channel == 0 {
        VifUnit::Vif0
    } else {
        VifUnit::Vif1
    }
}

#[tactic(auto, unfolding(crate::specs::Range::channel_in_range))]
fn channel_in_range(channel: u32, tte: bool) -> bool
    ensures { result ≡ channel_in_range channel tte }
{
    match channel {
        0 | 1 => true,
        2 => !tte,
        _ => false,
    }
}

// The start values, and the same fields of a state.
#[tactic(auto, unfolding(crate::specs::Range::start_in_range))]
pub(crate) fn start_in_range(channel: u32, tadr: u32, tte: bool) -> bool
    ensures { result ≡ start_in_range channel tadr tte }
{
    channel_in_range(channel, tte) && tadr % 16 == 0 && tadr < 0x8000_0000
}

#[tactic(auto, unfolding(crate::specs::Range::entry_in_range))]
fn entry_in_range(a: u32) -> bool
    ensures { result ≡ entry_in_range a }
{
    a % 16 == 0 && a <= 1048576
}

#[tactic(auto, unfolding(crate::specs::Range::stack_in_range))]
fn stack_in_range(stack: Stack) -> bool
    ensures { result ≡ stack_in_range stack }
{
    match stack {
        Stack::Empty => true,
        Stack::One(a) => entry_in_range(a),
        Stack::Two(a, b) => entry_in_range(a) && entry_in_range(b),
    }
}

#[tactic(auto, unfolding(crate::specs::Range::tag_word_in_range))]
fn tag_word_in_range(a: u32, tte: bool) -> bool
    ensures { result ≡ tag_word_in_range a tte }
{
    tte && a % 4 == 0 && 2 <= a / 4 % 4
}

#[tactic(auto, unfolding(crate::specs::Range::tags_in_range))]
fn tags_in_range(tags: Option<u32>, tte: bool) -> bool
    ensures { result ≡ tags_in_range tags tte }
{
    match tags {
        None => true,
        Some(a) => tag_word_in_range(a, tte),
    }
}

#[tactic(auto, unfolding(crate::specs::Range::words_in_range))]
fn words_in_range(channel: u32, at: u32, n: u32) -> bool
    ensures { result ≡ words_in_range channel at n }
{
    n == 0
        || (at % 4 == 0 && (channel != 2 || at % 16 == 0) && n <= 262140 && (at / 4 + n) % 4 == 0)
}

#[tactic(auto, unfolding(crate::specs::Range::payload_in_range))]
fn payload_in_range(payload: Payload, channel: u32) -> bool
    ensures { result ≡ payload_in_range payload channel }
{
    match payload {
        Payload::Nothing => true,
        Payload::Words { at, count } => words_in_range(channel, at, count),
    }
}

fn devices_in_range(s: State) -> bool
    ensures { result ≡ ((unit_in_range Vif0 s.vif0 && unit_in_range Vif1 s.vif1) && (path_in_range s.path2 && path_in_range s.path3)) }
{
    vif_codes::unit_in_range(VifUnit::Vif0, s.vif0)
        && vif_codes::unit_in_range(VifUnit::Vif1, s.vif1)
        && gif::path_in_range(s.path2)
        && gif::path_in_range(s.path3)
}

// Whether every field of a state is in its range.
#[tactic(auto, unfolding(crate::specs::Range::state_in_range))]
pub(crate) fn state_in_range(s: State) -> bool
    ensures { result ≡ state_in_range s }
{
    start_in_range(s.channel, s.tadr, s.tte)
        && stack_in_range(s.stack)
        && tags_in_range(s.tags, s.tte)
        && payload_in_range(s.payload, s.channel)
        && devices_in_range(s)
}

// Whether main memory of so many bytes is refused.
#[tactic(auto, unfolding(crate::specs::Range::main_refused))]
pub fn main_refused(size: usize) -> bool
    ensures { result ≡ main_refused size }
{
    size == 0 || size % 16 != 0 || MAIN_MOST < size
}

#[tactic(auto, unfolding(crate::specs::Range::tags_inside))]
fn tags_inside(tags: Option<u32>, size: usize) -> bool
    ensures { result ≡ tags_inside tags size }
{
    match tags {
        None => true,
        Some(a) => 16 * (u64::from(a) / 16 + 1) <= size as u64,
    }
}

#[tactic(auto, unfolding(crate::specs::Range::payload_inside))]
fn payload_inside(payload: Payload, size: usize) -> bool
    ensures { result ≡ payload_inside payload size }
{
    match payload {
        Payload::Nothing => true,
        Payload::Words { at, count } => {
            count == 0 || u64::from(at) + 4 * u64::from(count) <= size as u64
        }
    }
}

// The entry refusal.
pub fn test_entry(
    main: &[u8],
    data: &[u32],
    code: &[u8],
    log: &[u64],
    s: State,
) -> Result<(), Refusal>
    ensures { refusal_in result
        ≡ entry_refusal main.now (lent «data».now code.now log.now) s }
{
    if main_refused(main.len()) {
        return Err(Refusal::MainLength);
    }
    test_lengths(unit_of(s.channel), data, code, log, s.used)?;
    if !state_in_range(s) {
        return Err(Refusal::OutOfRange);
    }
    if !(tags_inside(s.tags, main.len()) && payload_inside(s.payload, main.len())) {
        return Err(Refusal::PayloadOutside);
    }
    Ok(())
}
