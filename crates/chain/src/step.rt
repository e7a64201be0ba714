// One step of a run.
ghost use Rattle.std.specs.Prelude.{◌≡◌, List, ℕ};
ghost use Rattle.memories.specs.Lengths.{lent};
ghost use Rattle.chain.specs.StepAnswer.{state_stepped};
ghost use Rattle.chain.specs.Step.{stepped_by, vif_given, gif_given, payload_step, payload_or_tag, step_of};
ghost use Rattle.chain.specs.Inner.{Ready, WordInside, PayloadInside, QuadwordReady, by_taken};

use super::StepResult;
use super::pending::{payload_after, tags_after};
use super::tags::{completed, refused, take_tag};
use chain_state::{Payload, State, unit_of};
use fields::{long_at, of_unit, one_quadword};
use gif::GifPath;
use vif_codes::{Taken, counts_in, incoming_at};

// The word at an address given to the channel's unit; then `tags` is pending, and of the payload `one` or, where a quadword was taken, `four`.
fn give_vif(
    main: &[u8],
    a: u32,
    tags: Option<u32>,
    one: Payload,
    four: Payload,
    s: State,
    data: &mut [u32],
    code: &mut [u8],
    log: &mut [u64],
) -> StepResult
    requires { Ready main.now s (lent «data».old code.old log.old) × WordInside main.now a }
    ensures { stepped_by (state_stepped result) (lent «data».new code.new log.new)
        ≡ vif_given main.now a tags (by_taken one four) s (lent «data».old code.old log.old) }
{
    let which = unit_of(s.channel);
    let unit = s.held_by(which);
    let next = incoming_at(main, a);
    let r = vif::take(which, unit, s.path2, next, data, code, log, s.used);
    let counts = of_unit(counts_in(unit.waiting, next, r.answer));
    let after = s.with_unit(which, r.unit, r.path2, r.used);
    match r.answer {
        Ok(Taken::Word { interrupt }) => {
            completed(interrupt, counts, after.with_pending(tags, one))
        }
        Ok(Taken::Quadword { interrupt, .. }) => {
            completed(interrupt, counts, after.with_pending(tags, four))
        }
        Err(refusal) => refused(refusal, s),
    }
}

// The quadword at an address given to path 3; then `rest` of the payload is pending.
fn give_gif(main: &[u8], a: u32, rest: Payload, s: State, log: &mut [u64]) -> StepResult
    requires { QuadwordReady main.now a s log.old }
    ensures { (mem code : List ℕ) → stepped_by (state_stepped result) (lent mem code log.new)
        ≡ gif_given main.now a rest s (lent mem code log.old) }
{
    let r = gif::take_quadword(
        GifPath::Three,
        s.path3,
        long_at(main, a),
        long_at(main, a + 8),
        log,
        s.used,
    );
    match r.answer {
        Ok(closed) => completed(
            false,
            of_unit(one_quadword(closed)),
            s.with_path3(r.path, r.used).with_pending(s.tags, rest),
        ),
        Err(refusal) => refused(refusal, s),
    }
}

// A pending payload word, on channel 2 a quadword.
fn take_payload(
    main: &[u8],
    at: u32,
    n: u32,
    s: State,
    data: &mut [u32],
    code: &mut [u8],
    log: &mut [u64],
) -> StepResult
    requires { Ready main.now s (lent «data».old code.old log.old) × PayloadInside main.now s at n }
    ensures { stepped_by (state_stepped result) (lent «data».new code.new log.new)
        ≡ payload_step main.now at n s (lent «data».old code.old log.old) }
{
    let four = payload_after(at, n, 4);
    if s.channel == 2 {
        return give_gif(main, at, four, s, log);
    }
    give_vif(
        main,
        at,
        s.tags,
        payload_after(at, n, 1),
        four,
        s,
        data,
        code,
        log,
    )
}

// The payload's next word, or a tag where none is pending.
fn take_payload_or_tag(
    main: &[u8],
    payload: Payload,
    s: State,
    data: &mut [u32],
    code: &mut [u8],
    log: &mut [u64],
) -> StepResult
    requires { Ready main.now s (lent «data».old code.old log.old) × (s.payload ≡ payload) }
    ensures { stepped_by (state_stepped result) (lent «data».new code.new log.new)
        ≡ payload_or_tag payload main.now s (lent «data».old code.old log.old) }
{
    match payload {
        Payload::Nothing => take_tag(main, s),
        Payload::Words { at, count } => {
            if count == 0 {
                take_tag(main, s)
            } else {
                take_payload(main, at, count, s, data, code, log)
            }
        }
    }
}

// Document 01's step, on a machine that passed the entry tests.
pub(crate) fn step(
    main: &[u8],
    s: State,
    data: &mut [u32],
    code: &mut [u8],
    log: &mut [u64],
) -> StepResult
    requires { Ready main.now s (lent «data».old code.old log.old) }
    ensures { stepped_by (state_stepped result) (lent «data».new code.new log.new)
        ≡ step_of main.now s (lent «data».old code.old log.old) }
{
    match s.tags {
        None => take_payload_or_tag(main, s.payload, s, data, code, log),
        Some(a) => give_vif(
            main,
            a,
            tags_after(a),
            s.payload,
            s.payload,
            s,
            data,
            code,
            log,
        ),
    }
}
