// What a tag's refusal shows.
ghost use Rattle.std.specs.Prelude.{◌≡◌};
ghost use Rattle.gif_reason.specs.Reason.{numbers};
ghost use Rattle.chain_reason.specs.Reason.{stack_depth, most_fits, tag_numbers};

use chain::Tag;
use chain_state::{Stack, State};
use fields::{Refusal, long_at};
use gif_reason::Numbers;

// One number alone.
fn one(first: u64) -> Numbers
    ensures { result ≡ numbers first 0 }
{
    Numbers { first, second: 0 }
}

fn stack_depth(stack: Stack) -> u64
    ensures { result ≡ stack_depth stack }
{
    match stack {
        Stack::Empty => 0,
        Stack::One(_) => 1,
        Stack::Two(..) => 2,
    }
}

#[tactic(auto, unfolding(crate::specs::Reason::most_fits))]
fn most_fits(size: usize, start: u64) -> u64
    ensures { result ≡ most_fits size start }
{
    (size as u64).saturating_sub(start) / 16
}

// What the refusal of the tag at TADR shows, by its number, which may be any.
pub fn tag_numbers(refusal: u32, main: &[u8], s: State) -> Numbers
    ensures { result ≡ tag_numbers refusal main.now s }
{
    let tag = Tag::new(long_at(main, s.tadr));
    if refusal == Refusal::TadrOutside.number() {
        one(u64::from(s.tadr))
    } else if refusal == Refusal::AddrUnaligned.number() {
        one(u64::from(tag.addr))
    } else if refusal == Refusal::ScratchpadSet.number() {
        one(u64::from(tag.spr))
    } else if refusal == Refusal::StackFull.number() {
        one(stack_depth(s.stack))
    } else if refusal == Refusal::PayloadOutside.number() {
        Numbers {
            first: u64::from(tag.qwc),
            second: most_fits(main.len(), tag.payload_at(s.tadr)),
        }
    } else {
        one(0)
    }
}
