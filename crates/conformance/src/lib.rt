// Sheets on the board: the chain built in main memory, started and run. What the function means is said by the definitions of specs/.
#![tactic(auto)]

mod play;

use chain::Ending;
use chain_state::State;
use fields::{Counts, Refusal};
pub use play::build_and_run;
use sheet::SheetError;

// Why a sheet on the board came to no ending: the refusal before the run, with the record's offset (0 for all but 40 to 45), or the run's.
#[derive(Debug, Clone, Copy, PartialEq, Eq)]
pub enum PlayError {
    Sheet(SheetError),
    Run(Refusal),
}

#[derive(Clone, Copy)]
pub struct PlayResult {
    pub answer: Result<Ending, PlayError>,
    pub state: State,
    pub counts: Counts,
}
