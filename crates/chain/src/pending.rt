// What is pending.
ghost use Rattle.std.specs.Prelude.{◌≡◌, ◌+◌, ◌*◌, ◌^◌, ◌<◌};
ghost use Rattle.chain_state.specs.Pending.{no_payload, tags_after, payload_after};
ghost use Rattle.chain.specs.Run.{done};

use chain_state::{Payload, State};

fn no_payload(payload: Payload) -> bool
    ensures { result ≡ no_payload payload }
{
    match payload {
        Payload::Nothing => true,
        Payload::Words { count, .. } => count == 0,
    }
}

// The chain has ended and nothing is pending.
#[tactic(auto, unfolding(crate::specs::Run::done))]
pub fn finished(s: State) -> bool
    ensures { result ≡ done s }
{
    s.ended && s.tags.is_none() && no_payload(s.payload)
}

pub(crate) fn tags_after(a: u32) -> Option<u32>
    requires { a + 4 < 2 ^ 32 }
    ensures { result ≡ tags_after a }
{
    if a / 4 % 4 == 3 { None } else { Some(a + 4) }
}

pub(crate) fn payload_after(at: u32, n: u32, k: u32) -> Payload
    requires { at + 4 * k < 2 ^ 32 }
    ensures { result ≡ payload_after at n k }
{
    if n <= k {
        Payload::Nothing
    } else {
        Payload::Words {
            at: at + 4 * k,
            count: n - k,
        }
    }
}
