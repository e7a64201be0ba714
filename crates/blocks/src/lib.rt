// State blocks of cases, and states and answers as results show them.
#![tactic(auto)]

ghost use Rattle.std.specs.Prelude.{◌≡◌};
ghost use Rattle.fields.specs.Counts.{count_numbers};
ghost use Rattle.wire.specs.Words.{sent_all};
ghost use Rattle.cases.specs.Memories.{ruled, word_from, longs_words};
ghost use Rattle.state_block.specs.Sizes.{state_size};
ghost use Rattle.blocks.specs.Shown.{shown_block};

pub use chain::answer_number;
use chain_state::State;
use fields::Counts;
use state_block::STATE_WORDS;
use wire::Output;

// The state block that starts at a place of a header.
pub fn block_at(header: &[u8], at: u32) -> [u32; STATE_WORDS]
    ensures { result ≡ ruled (word_from header.now at) state_size }
{
    cases::words_at(header, at)
}

// What a result shows where the case gave this block and this state is left.
pub fn shown_block(block: [u32; STATE_WORDS], state: State) -> [u32; STATE_WORDS]
    ensures { result ≡ shown_block block state }
{
    match state_block::state_in_block(&block) {
        Some(_) => state_block::state_block(state),
        None => block,
    }
}

// A run's counts, two words for each number.
pub fn emit_counts(out: &mut Output, counts: Counts)
    ensures { out.new ≡ sent_all out.old.out out.old.at (longs_words (count_numbers counts)) }
{
    let numbers = fields::count_numbers(counts);
    out.emit_all(&numbers);
}
