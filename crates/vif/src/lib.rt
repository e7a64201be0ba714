// A VIF unit: its codes' steps, their payload, and DIRECT into the GIF's path 2. What each function means is said by the definitions of specs/.
#![tactic(auto)]

mod bursts;
mod codes;
mod direct;
mod execute;
mod feed;
mod mpg;
mod payload;
mod step;

pub use feed::take_words;
pub use step::take;

#[derive(Clone, Copy)]
pub struct VifResult {
    pub answer: Result<vif_codes::Taken, fields::Refusal>,
    pub unit: vif_codes::Vif,
    pub path2: gif::Path,
    pub used: u64,
}

// What words given one after another leave, how many words were taken, what the steps count for, and whether the last of them completed an interrupt.
#[derive(Clone, Copy)]
pub struct WordsResult {
    pub unit: vif_codes::Vif,
    pub path2: gif::Path,
    pub used: u64,
    pub words: u32,
    pub counts: fields::UnitCounts,
    pub interrupt: bool,
}
