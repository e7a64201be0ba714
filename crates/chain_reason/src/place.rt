// The place that the next step reads.
ghost use Rattle.std.specs.Prelude.{◌≡◌};
ghost use Rattle.chain_reason.specs.Reason.{payload_place, next_place};

use chain_state::{Payload, State};

// Of the payload's next word or quadword, or of the next tag where none is pending.
fn payload_place(payload: Payload, s: State) -> u32
    ensures { result ≡ payload_place payload s }
{
    match payload {
        Payload::Nothing => s.tadr,
        Payload::Words { at, count } => if count == 0 { s.tadr } else { at },
    }
}

// Of the tag, the VIF word or the GIF quadword.
#[tactic(auto, unfolding(crate::specs::Reason::next_place))]
pub fn next_place(s: State) -> u32
    ensures { result ≡ next_place s }
{
    match s.tags {
        None => payload_place(s.payload, s),
        Some(a) => a,
    }
}
