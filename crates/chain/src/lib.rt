// The DMA chain on channel 0 (VIF0), 1 (VIF1) or 2 (GIF): its steps and the run. What each function means is said by the definitions of specs/.
#![tactic(auto)]

mod burst;
mod execution;
mod pending;
mod step;
mod tags;

pub use execution::{answer_number, run};
pub use pending::finished;
pub use tags::Tag;

// What a step counts for, and the state that it leaves; or what some steps do, and the answer to the last. The answer is whether it completed a code with its interrupt bit,
// or the refusal.
#[derive(Clone, Copy)]
pub struct StepResult {
    pub answer: Result<bool, fields::Refusal>,
    pub counts: fields::Counts,
    pub state: chain_state::State,
}

// What some steps leave and count for, and whether the last of them was an interrupt mark.
#[derive(Clone, Copy)]
pub(crate) struct BurstResult {
    pub(crate) state: chain_state::State,
    pub(crate) counts: fields::UnitCounts,
    pub(crate) interrupt: bool,
}

// How a run that is not refused ends: the chain is done, the allowance is used, or a step was an interrupt mark.
#[derive(Clone, Copy)]
pub enum Ending {
    Done,
    Allowance,
    Interrupt,
}

#[derive(Clone, Copy)]
pub struct RunResult {
    pub answer: Result<Ending, fields::Refusal>,
    pub state: chain_state::State,
    pub counts: fields::Counts,
}
