// Why the next step would be refused, as a result shows it.
use cases::Memories;
use chain_state::State;
use diagnosis::{Reason, why};
use wire::Output;

// The kind, the refusal, the address, and the two numbers that are shown; on the memories that a run would be lent.
pub(crate) fn tell_why(out: &mut Output, main: &[u8], memories: &Memories<'_>, state: State) {
    let reason = why(main, memories.data, memories.code, memories.log, state);
    let (words, shown) = match reason {
        Reason::NoComplaint => ([0u32, 0, 0], [0u64, 0]),
        Reason::Ended => ([1, 0, 0], [0, 0]),
        Reason::Entry(refusal) => ([2, refusal.number(), 0], [0, 0]),
        Reason::Step {
            refusal,
            address,
            first,
            second,
        } => ([3, refusal.number(), address], [first, second]),
    };
    out.emit_all(&words);
    out.emit_all(&shown);
}
