// The state block: a saved state as 95 words.
ghost use Rattle.std.specs.Prelude.{◌≡◌, get_or, leb};
ghost use Rattle.std.specs.Bool.{then_some};
ghost use Rattle.state_block.specs.Sizes.{vif1_at, path2_at, path3_at, vif0_at, path_size, unit_size, part};
ghost use Rattle.state_block.specs.Read.{known_state};
ghost use Rattle.state_block.specs.PathBlock.{path_in_block};
ghost use Rattle.state_block.specs.UnitBlock.{unit_in_block};
ghost use Rattle.state_block.specs.StateBlock.{stack_words, tags_block, payload_block, chain_words, state_block, stack_in_block, payload_in_block, used_in_block, no_state, state_with, state_in_block};

use super::path::{path_block, path_in_block};
use super::unit::{unit_block, unit_in_block};
use super::words::{bit_in, halves, joined};
use super::{CHAIN_WORDS, PATH2_AT, PATH3_AT, STATE_WORDS, VIF0_AT, VIF1_AT};
use chain_state::{Payload, Stack, State};

// Words 4 to 6.
fn stack_words(stack: Stack) -> [u32; 3]
    ensures { result ≡ stack_words stack }
{
    match stack {
        Stack::Empty => [0, 0, 0],
        Stack::One(a) => [1, a, 0],
        Stack::Two(a, b) => [2, a, b],
    }
}

// Words 7 and 8.
fn tag_words(tags: Option<u32>) -> [u32; 2]
    ensures { result ≡ tags_block tags }
{
    match tags {
        None => [0, 0],
        Some(at) => [1, at],
    }
}

// Words 9 and 10.
fn payload_words(payload: Payload) -> [u32; 2]
    ensures { result ≡ payload_block payload }
{
    match payload {
        Payload::Nothing => [0, 0],
        Payload::Words { at, count } => { if count == 0 { [0, 0] } else { [count, at] } }
    }
}

// Words 0 to 12.
#[tactic(auto, using(crate::proofs::WordLaws::bit_from), unfolding(crate::specs::StateBlock::chain_words))]
fn chain_words(state: State) -> [u32; CHAIN_WORDS]
    ensures { result ≡ chain_words state }
{
    let [depth, bottom, top] = stack_words(state.stack);
    let [pending, tags_at] = tag_words(state.tags);
    let [count, payload_at] = payload_words(state.payload);
    let [used, used_high] = halves(state.used);
    [
        state.channel,
        state.tadr,
        u32::from(state.tte),
        u32::from(state.ended),
        depth,
        bottom,
        top,
        pending,
        tags_at,
        count,
        payload_at,
        used,
        used_high,
    ]
}

// The words of a state.
pub fn state_block(state: State) -> [u32; STATE_WORDS]
    ensures { result ≡ state_block state }
{
    let c = chain_words(state);
    let u = unit_block(state.vif1);
    let p = path_block(state.path2);
    let q = path_block(state.path3);
    let v = unit_block(state.vif0);
    let mut block = [0; STATE_WORDS];
    fields::put_words(&mut block, 0, &c);
    fields::put_words(&mut block, VIF1_AT, &u);
    fields::put_words(&mut block, PATH2_AT, &p);
    fields::put_words(&mut block, PATH3_AT, &q);
    fields::put_words(&mut block, VIF0_AT, &v);
    block
}

fn stack_in_words(block: &[u32; STATE_WORDS]) -> Option<Stack>
    ensures { result ≡ then_some (leb (get_or block.now 4 0) 2) (stack_in_block block.now) }
{
    match block[4] {
        0 => Some(Stack::Empty),
        1 => Some(Stack::One(block[5])),
        2 => Some(Stack::Two(block[5], block[6])),
        _ => None,
    }
}

fn payload_in_words(block: &[u32; STATE_WORDS]) -> Payload
    ensures { result ≡ payload_in_block block.now }
{
    match block[9] {
        0 => Payload::Nothing,
        count => Payload::Words {
            at: block[10],
            count,
        },
    }
}

fn used_in_words(block: &[u32; STATE_WORDS]) -> u64
    ensures { result ≡ used_in_block block.now }
{
    joined(block[11], block[12])
}

// The state of a block's words, where they are a state's.
fn state_in_words(block: &[u32; STATE_WORDS]) -> Option<State>
    ensures { result
        ≡ known_state (state_with (unit_in_block (part vif1_at unit_size block.now)) (path_in_block (part path2_at path_size block.now))
        (path_in_block (part path3_at path_size block.now)) (unit_in_block (part vif0_at unit_size block.now)) block.now) }
{
    Some(State {
        channel: block[0],
        tadr: block[1],
        tte: bit_in(block[2])?,
        ended: bit_in(block[3])?,
        stack: stack_in_words(block)?,
        tags: bit_in(block[7])?.then_some(block[8]),
        payload: payload_in_words(block),
        used: used_in_words(block),
        vif1: unit_in_block(&block[VIF1_AT..PATH2_AT])?,
        path2: path_in_block(&block[PATH2_AT..PATH3_AT])?,
        path3: path_in_block(&block[PATH3_AT..VIF0_AT])?,
        vif0: unit_in_block(&block[VIF0_AT..])?,
    })
}

// The state of a block, where its words are a state's.
pub fn state_in_block(block: &[u32]) -> Option<State>
    ensures { result ≡ known_state (state_in_block block.now) }
{
    state_in_words(block.as_array()?)
}

// Stands for the state of words that are no state's: the reset state with TADR 1, so out of range, with the channel and the entries used that the words say.
#[tactic(auto, unfolding(crate::specs::StateBlock::no_state, chain_state::specs::Start::reset_state))]
fn no_state(channel: u32, used: u64) -> State
    ensures { result ≡ no_state channel used }
{
    State {
        channel,
        tadr: 1,
        used,
        ..chain_state::reset()
    }
}

// The state of a block, or one out of range where there is none.
pub fn state_given(block: &[u32]) -> State
    ensures { result ≡ (state_in_block block.now).state }
{
    match block.as_array() {
        None => no_state(1, 0),
        Some(words) => { state_in_words(words).unwrap_or(no_state(words[0], used_in_words(words))) }
    }
}
