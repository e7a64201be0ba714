// The calls of a case, and their results.
use super::sums::tell_sum;
use super::why::tell_why;
use blocks::{answer_number, block_at, emit_counts, shown_block};
use cases::Memories;
use chain_state::State;
use console::set_in_block;
use fields::Refusal;
use state_block::{STATE_WORDS, state_given};
use wire::{Output, long_at, word_at};

// The state that is given to the next call, and the block that shows it; the case's block, and whether results show whole memories.
#[derive(Clone, Copy)]
pub(crate) struct Running {
    state: State,
    block: [u32; STATE_WORDS],
    given: [u32; STATE_WORDS],
    whole: bool,
}

// A start; a TTE above 1 is out of range.
fn started(state: State, channel: u32, tadr: u32, tte: u32) -> Result<State, Refusal> {
    if 1 < tte {
        return Err(Refusal::OutOfRange);
    }
    chain_state::start(state, channel, tadr, tte == 1)
}

// Whole memories, or what a run changed in them and their sums.
fn tell_memories(out: &mut Output, whole: bool, now: &Memories<'_>, before: &mut Memories<'_>) {
    if whole {
        now.emit(out);
    } else {
        now.tell(before, out);
        tell_sum(out, now.data);
        tell_sum(out, now.code);
        tell_sum(out, now.log);
    }
}

impl Running {
    // What a case starts from, by its header.
    pub(crate) fn new(header: &[u8]) -> Running {
        let block = block_at(header, 48);
        Running {
            state: state_given(&block),
            block,
            given: block,
            whole: word_at(header, 32) == 1,
        }
    }

    pub(crate) fn channel(&self) -> u32 {
        self.state.channel
    }

    // The state that a start or a run left, as a result shows it.
    fn leave(&mut self, out: &mut Output, state: State) {
        self.state = state;
        self.block = shown_block(self.given, state);
        out.emit_all(&self.block);
    }

    fn start(&mut self, out: &mut Output, call: &[u8]) {
        let begun = started(
            self.state,
            word_at(call, 4),
            word_at(call, 8),
            word_at(call, 12),
        );
        match begun {
            Ok(state) => {
                out.emit(0u32);
                self.leave(out, state);
            }
            Err(refusal) => {
                out.emit(refusal.number());
                self.leave(out, self.state);
            }
        }
    }

    // A unit's ROW or COL set in the block as it stands; the state goes on as that block has it.
    fn set(&mut self, out: &mut Output, call: &[u8]) {
        let answer = set_in_block(
            &mut self.block,
            word_at(call, 4),
            word_at(call, 8),
            word_at(call, 12),
        );
        out.emit(answer.err().map_or(0, |refusal| refusal.number()));
        out.emit_all(&self.block);
        self.state = state_given(&self.block);
    }

    fn run(
        &mut self,
        out: &mut Output,
        call: &[u8],
        main: &[u8],
        now: &mut Memories<'_>,
        before: &mut Memories<'_>,
    ) {
        let allowance = long_at(call, 4);
        let r = chain::run(main, now.data, now.code, now.log, self.state, allowance);
        out.emit(answer_number(r.answer));
        emit_counts(out, r.counts);
        self.leave(out, r.state);
        tell_memories(out, self.whole, now, before);
    }

    // One call on the memories of the state's channel.
    pub(crate) fn call(
        &mut self,
        out: &mut Output,
        call: &[u8],
        main: &[u8],
        now: &mut Memories<'_>,
        before: &mut Memories<'_>,
    ) {
        match word_at(call, 0) {
            1 => self.start(out, call),
            3 => self.set(out, call),
            4 => tell_why(out, main, now, self.state),
            _ => self.run(out, call, main, now, before),
        }
    }
}
