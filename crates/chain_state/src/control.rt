// Reset and start.
ghost use Rattle.std.specs.Prelude.{◌≡◌};
ghost use Rattle.chain_state.specs.Start.{reset_path, reset_unit, reset_state, started_from, started_by, start_of};

use super::range::{start_in_range, state_in_range};
use super::{Payload, Stack, State};
use fields::Refusal;
use gif::Path;
use vif_codes::{Vif, Waiting};

fn reset_path() -> Path
    ensures { result ≡ reset_path }
{
    Path { q: 0, place: None }
}

fn reset_unit() -> Vif
    ensures { result ≡ reset_unit }
{
    Vif {
        cl: 0,
        wl: 0,
        ofst: 0,
        base: 0,
        tops: 0,
        top: 0,
        itops: 0,
        itop: 0,
        dbf: false,
        mode: 0,
        mskpath3: false,
        mark: 0,
        mask: 0,
        row: [0, 0, 0, 0],
        col: [0, 0, 0, 0],
        waiting: Waiting::Nothing,
    }
}

// The reset state.
#[tactic(auto, unfolding(crate::specs::Start::reset_state))]
pub fn reset() -> State
    ensures { result ≡ reset_state }
{
    State {
        channel: 1,
        tadr: 0,
        tte: false,
        ended: false,
        stack: Stack::Empty,
        tags: None,
        payload: Payload::Nothing,
        used: 0,
        vif0: reset_unit(),
        vif1: reset_unit(),
        path2: reset_path(),
        path3: reset_path(),
    }
}

// The state that a start makes of another.
fn started(s: State, channel: u32, tadr: u32, tte: bool) -> State
    ensures { result ≡ started_from s channel tadr tte }
{
    State {
        channel,
        tadr,
        tte,
        ended: false,
        stack: Stack::Empty,
        tags: None,
        payload: Payload::Nothing,
        ..s
    }
}

// A start, on any input at all.
pub fn start(s: State, channel: u32, tadr: u32, tte: bool) -> Result<State, Refusal>
    ensures { started_by s result ≡ start_of s channel tadr tte }
{
    if state_in_range(s) && start_in_range(channel, tadr, tte) {
        Ok(started(s, channel, tadr, tte))
    } else {
        Err(Refusal::OutOfRange)
    }
}
