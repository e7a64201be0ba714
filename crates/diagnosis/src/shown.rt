// What the refusal of the next step shows.
ghost use Rattle.std.specs.Prelude.{◌≡◌};
ghost use Rattle.fields.specs.Refusals.{refusal_number};
ghost use Rattle.diagnosis.specs.Why.{unit_numbers, payload_numbers, payload_or_tag_numbers, next_numbers};

use super::Fault;
use chain_reason::tag_numbers;
use chain_state::{Payload, State, unit_of};
use gif_reason::{Numbers, quadword_numbers};
use vif_codes::incoming_at;
use vif_reason::word_numbers;

// A step that is refused, and what it reads.
#[derive(Clone, Copy)]
pub(crate) struct Refused<'a> {
    pub(crate) fault: Fault,
    pub(crate) main: &'a [u8],
    pub(crate) state: State,
    pub(crate) log: &'a [u64],
}

impl Refused<'_> {
    // The word at an address, which the channel's unit is given.
    fn unit_numbers(self, a: u32) -> Numbers
        ensures { result
            ≡ unit_numbers (refusal_number self.entry.fault.refusal) self.entry.fault.needed self.entry.main.now a self.entry.state self.entry.log.now }
    {
        let s = self.state;
        word_numbers(
            self.fault.refusal.number(),
            s.held_by(unit_of(s.channel)),
            s.path2,
            incoming_at(self.main, a),
            self.fault.needed,
            self.log,
            s.used,
        )
    }

    // Pending payload.
    fn payload_numbers(self, at: u32) -> Numbers
        ensures { result
            ≡ payload_numbers (refusal_number self.entry.fault.refusal) self.entry.fault.needed self.entry.main.now at self.entry.state self.entry.log.now }
    {
        let s = self.state;
        if s.channel == 2 {
            quadword_numbers(
                self.fault.refusal.number(),
                s.path3,
                self.fault.needed,
                self.log,
                s.used,
            )
        } else {
            self.unit_numbers(at)
        }
    }

    // Pending payload, or a tag where none is pending.
    fn payload_or_tag_numbers(self, payload: Payload) -> Numbers
        ensures { result
            ≡ payload_or_tag_numbers payload (refusal_number self.entry.fault.refusal) self.entry.fault.needed self.entry.main.now self.entry.state self.entry.log.now }
    {
        match payload {
            Payload::Nothing => tag_numbers(self.fault.refusal.number(), self.main, self.state),
            Payload::Words { at, count } => {
                if count == 0 {
                    tag_numbers(self.fault.refusal.number(), self.main, self.state)
                } else {
                    self.payload_numbers(at)
                }
            }
        }
    }

    // What the refusal shows.
    pub(crate) fn numbers(self) -> Numbers
        ensures { result
            ≡ next_numbers (refusal_number self.entry.fault.refusal) self.entry.fault.needed self.entry.main.now self.entry.state self.entry.log.now }
    {
        match self.state.tags {
            None => self.payload_or_tag_numbers(self.state.payload),
            Some(a) => self.unit_numbers(a),
        }
    }
}
