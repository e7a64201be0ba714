// Chain tags.
ghost use Rattle.std.specs.Prelude.{◌≡◌, ◌&&◌, not, ◌+◌, ◌*◌, ◌%◌, ◌^◌, ◌<◌, ◌≤◌, eqb, ltb};
ghost use Rattle.fields.specs.Refusals.{refusal_number, refusal_in};
ghost use Rattle.chain.specs.StepAnswer.{state_stepped};
ghost use Rattle.chain.specs.Tags.{qwc_of, id_of, addr_of, spr_of, uses_addr, payload_at, after_payload, return_to, next_tadr, is_full, ends_chain, pushed, popped, next_stack, tag_words_of, payload_of, tag_refusal, tag_state, completed_result, refused_result, tag_step};

use super::StepResult;
use chain_state::{Payload, Stack, State};
use fields::{Counts, Refusal, long_at, no_counts, one_tag};

// The fields of a tag.
#[derive(Clone, Copy)]
pub struct Tag {
    pub qwc: u32,
    pub id: u32,
    pub addr: u32,
    pub spr: bool,
    pub ghost in_range: { (qwc ≤ 65535) × (addr < 2 ^ 31) },
}

// TADR below 2^31 is required of a state, and no invariant of its type: a host gives a run any state.
impl Tag {
    // From its 64 bits.
    pub fn new(bits: u64) -> Tag
        ensures qwc { result.qwc ≡ qwc_of bits }
        ensures id { result.id ≡ id_of bits }
        ensures addr { result.addr ≡ addr_of bits }
        ensures spr { result.spr ≡ spr_of bits }
    {
        Tag {
            qwc: (bits % 65536) as u32,
            id: (bits / 0x1000_0000 % 8) as u32,
            addr: (bits / 0x1_0000_0000 % 0x8000_0000) as u32,
            spr: bits / 0x8000_0000_0000_0000 == 1,
        }
    }

    #[tactic(auto, unfolding(crate::specs::Tags::uses_addr))]
    fn uses_addr(self) -> bool
        ensures { result ≡ uses_addr self.id }
    {
        matches!(self.id, 0 | 2..=5)
    }

    // Where its payload starts.
    pub fn payload_at(self, tadr: u32) -> u64
        ensures { result ≡ payload_at self.id self.addr tadr }
    {
        match self.id {
            0 | 3 | 4 => u64::from(self.addr),
            _ => u64::from(tadr) + 16,
        }
    }

    fn after_payload(self, tadr: u32) -> u32
        requires { tadr < 2 ^ 31 }
        ensures { result ≡ after_payload tadr self.qwc }
    {
        tadr + 16 + 16 * self.qwc
    }

    fn next_tadr(self, s: State) -> u32
        requires { s.tadr < 2 ^ 31 }
        ensures { result ≡ next_tadr self.id self.addr s.tadr self.qwc s.stack }
    {
        match self.id {
            1 => self.after_payload(s.tadr),
            2 | 5 => self.addr,
            6 => return_to(s.stack, s.tadr),
            7 => s.tadr,
            _ => s.tadr + 16,
        }
    }

    #[tactic(auto, unfolding(crate::specs::Tags::ends_chain))]
    fn ends_chain(self, stack: Stack) -> bool
        ensures { result ≡ ends_chain self.id stack }
    {
        match self.id {
            0 | 7 => true,
            6 => matches!(stack, Stack::Empty),
            _ => false,
        }
    }

    fn next_stack(self, s: State) -> Stack
        requires { s.tadr < 2 ^ 31 }
        ensures { result ≡ next_stack self.id s.tadr self.qwc s.stack }
    {
        match self.id {
            5 => push(s.stack, self.after_payload(s.tadr)),
            6 => pop(s.stack),
            _ => s.stack,
        }
    }

    fn payload(self, tadr: u32) -> Payload
        requires { tadr < 2 ^ 31 }
        ensures { result ≡ payload_of (payload_at self.id self.addr tadr) self.qwc }
    {
        if self.qwc == 0 {
            return Payload::Nothing;
        }
        Payload::Words {
            at: self.payload_at(tadr) as u32,
            count: 4 * self.qwc,
        }
    }

    // Refusal 11.
    fn misaligned(self) -> bool
        ensures { result ≡ (uses_addr self.id && not (eqb (self.addr % 16) 0)) }
    {
        self.uses_addr() && self.addr % 16 != 0
    }

    // Refusal 12.
    fn in_scratchpad(self) -> bool
        ensures { result ≡ (uses_addr self.id && self.spr) }
    {
        self.uses_addr() && self.spr
    }

    // Refusal 13.
    fn calls_full(self, stack: Stack) -> bool
        ensures { result ≡ (eqb self.id 5 && is_full stack) }
    {
        self.id == 5 && matches!(stack, Stack::Two(..))
    }

    // Refusal 14.
    fn lies_outside(self, size: usize, tadr: u32) -> bool
        ensures { result ≡ (not (eqb self.qwc 0) && ltb size (payload_at self.id self.addr tadr + 16 * self.qwc)) }
    {
        self.qwc != 0 && (size as u64) < self.payload_at(tadr) + 16 * u64::from(self.qwc)
    }

    // Its refusal, in a memory of so many bytes.
    fn test(self, size: usize, s: State) -> Result<(), Refusal>
        ensures { refusal_in result ≡ tag_refusal size s.tadr self.id self.addr self.spr self.qwc s.stack }
    {
        if (size as u64) < u64::from(s.tadr) + 16 {
            return Err(Refusal::TadrOutside);
        }
        if self.misaligned() {
            return Err(Refusal::AddrUnaligned);
        }
        if self.in_scratchpad() {
            return Err(Refusal::ScratchpadSet);
        }
        if self.calls_full(s.stack) {
            return Err(Refusal::StackFull);
        }
        if self.lies_outside(size, s.tadr) {
            return Err(Refusal::PayloadOutside);
        }
        Ok(())
    }

    // What it does to the state where it is accepted.
    fn accepted(self, s: State) -> State
        requires { s.tadr < 2 ^ 31 }
        ensures { result ≡ tag_state self.id self.addr self.qwc s }
    {
        s.with_tag(
            self.next_tadr(s),
            self.ends_chain(s.stack),
            self.next_stack(s),
            tag_words_of(s.tte, s.tadr),
            self.payload(s.tadr),
        )
    }
}

fn return_to(stack: Stack, tadr: u32) -> u32
    ensures { result ≡ return_to stack tadr }
{
    match stack {
        Stack::Empty => tadr,
        Stack::One(a) => a,
        Stack::Two(_, b) => b,
    }
}

fn push(stack: Stack, a: u32) -> Stack
    ensures { result ≡ pushed stack a }
{
    match stack {
        Stack::Empty => Stack::One(a),
        Stack::One(b) => Stack::Two(b, a),
        Stack::Two(b, c) => Stack::Two(b, c),
    }
}

fn pop(stack: Stack) -> Stack
    ensures { result ≡ popped stack }
{
    match stack {
        Stack::Empty | Stack::One(_) => Stack::Empty,
        Stack::Two(a, _) => Stack::One(a),
    }
}

fn tag_words_of(tte: bool, tadr: u32) -> Option<u32>
    requires { tadr < 2 ^ 31 }
    ensures { result ≡ tag_words_of tte tadr }
{
    if tte { Some(tadr + 8) } else { None }
}

// A step that was completed, and what it counts for.
pub(crate) fn completed(interrupt: bool, counts: Counts, state: State) -> StepResult
    ensures { state_stepped result ≡ completed_result interrupt counts state }
{
    StepResult {
        answer: Ok(interrupt),
        counts,
        state,
    }
}

pub(crate) fn refused(refusal: Refusal, state: State) -> StepResult
    ensures { state_stepped result ≡ refused_result (refusal_number refusal) state }
{
    StepResult {
        answer: Err(refusal),
        counts: no_counts(),
        state,
    }
}

// A tag read.
pub(crate) fn take_tag(main: &[u8], s: State) -> StepResult
    requires { s.tadr < 2 ^ 31 }
    ensures { state_stepped result ≡ tag_step main.now s }
{
    let tag = Tag::new(long_at(main, s.tadr));
    match tag.test(main.len(), s) {
        Ok(()) => completed(false, one_tag(tag.id, tag.qwc), tag.accepted(s)),
        Err(refusal) => refused(refusal, s),
    }
}
