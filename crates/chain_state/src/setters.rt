// The state with some of its parts replaced.
ghost use Rattle.std.specs.Prelude.{◌≡◌};
ghost use Rattle.chain_state.specs.Setters.{with_tag, with_pending, held_by, with_unit, with_path3};

use super::{Payload, Stack, State};
use gif::Path;
use memories::VifUnit;
use vif_codes::Vif;

impl State {
    // What a tag sets.
    pub fn with_tag(
        self,
        tadr: u32,
        ended: bool,
        stack: Stack,
        tags: Option<u32>,
        payload: Payload,
    ) -> State
        ensures { result ≡ with_tag self tadr ended stack tags payload }
    {
        State {
            tadr,
            ended,
            stack,
            ..self.with_pending(tags, payload)
        }
    }

    // What is pending.
    pub fn with_pending(self, tags: Option<u32>, payload: Payload) -> State
        ensures { result ≡ with_pending self tags payload }
    {
        State {
            tags,
            payload,
            ..self
        }
    }

    // A unit's registers and waiting code.
    pub fn held_by(self, which: VifUnit) -> Vif
        ensures { result ≡ held_by which self }
    {
        match which {
            VifUnit::Vif0 => self.vif0,
            VifUnit::Vif1 => self.vif1,
        }
    }

    // What a unit's step leaves.
    pub fn with_unit(self, which: VifUnit, unit: Vif, path2: Path, used: u64) -> State
        ensures { result ≡ with_unit which self unit path2 used }
    {
        match which {
            VifUnit::Vif0 => State {
                vif0: unit,
                path2,
                used,
                ..self
            },
            VifUnit::Vif1 => State {
                vif1: unit,
                path2,
                used,
                ..self
            },
        }
    }

    // What the GIF's step on path 3 leaves.
    pub fn with_path3(self, path3: Path, used: u64) -> State
        ensures { result ≡ with_path3 self path3 used }
    {
        State {
            path3,
            used,
            ..self
        }
    }
}
