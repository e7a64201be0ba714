// The functions that C calls (host/tejborun.h). What each one means is said by the definitions of specs/.
#![tactic(auto)]

mod blocks;
mod boards;
mod checks;
mod play;
mod reasons;
mod results;
mod runs;
mod sheets;
mod sums;

pub use boards::{tejborun_compare, tejborun_compare_within};
pub use checks::tejborun_check;
pub use play::tejborun_build_and_run;
pub use reasons::tejborun_why;
pub use runs::{tejborun_reset, tejborun_run, tejborun_set, tejborun_start};
pub use sheets::{tejborun_build, tejborun_meaning, tejborun_salvage, tejborun_steps};
pub use sums::{tejborun_add_totals, tejborun_nop_share};
