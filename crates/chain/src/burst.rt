// Many steps in one call: payload given to a unit or to path 3.
ghost use Rattle.std.specs.Prelude.{◌≡◌, false, List, ℕ, None};
ghost use Rattle.fields.specs.Counts.{no_units, of_unit};
ghost use Rattle.memories.specs.Lengths.{lent};
ghost use Rattle.chain.specs.Inner.{Ready, PayloadNext, PayloadInside, Burst, burst_result};
ghost use Rattle.chain.specs.Step.{machine};

use super::BurstResult;
use super::pending::payload_after;
use chain_state::{Payload, State, unit_of};
use fields::{no_units, quadwords_alone};
use gif::GifPath;

// The payload's words, given to the channel's unit.
fn give_words(
    main: &[u8],
    at: u32,
    count: u32,
    s: State,
    limit: u64,
    data: &mut [u32],
    code: &mut [u8],
    log: &mut [u64],
) -> BurstResult
    requires { PayloadNext s at count × (PayloadInside main.now s at count × (s.channel ≡ 2 → ⊥)) }
    ensures { Burst main.now limit (machine s (lent «data».old code.old log.old))
        result.interrupt (of_unit result.counts) (machine result.state (lent «data».new code.new log.new)) }
{
    let which = unit_of(s.channel);
    let r = vif::take_words(
        which,
        s.held_by(which),
        s.path2,
        main,
        at,
        count,
        limit,
        data,
        code,
        log,
        s.used,
    );
    BurstResult {
        state: s
            .with_unit(which, r.unit, r.path2, r.used)
            .with_pending(None, payload_after(at, count, r.words)),
        counts: r.counts,
        interrupt: r.interrupt,
    }
}

// The payload's quadwords, given to path 3.
fn give_quadwords(
    main: &[u8],
    at: u32,
    count: u32,
    s: State,
    limit: u64,
    log: &mut [u64],
) -> BurstResult
    requires { PayloadNext s at count × (PayloadInside main.now s at count × (s.channel ≡ 2)) }
    ensures { (mem code : List ℕ) → Burst main.now limit (machine s (lent mem code log.old))
        result.interrupt (of_unit result.counts) (machine result.state (lent mem code log.new)) }
{
    let most = u64::from(count / 4).min(limit) as u32;
    let r = gif::take_quadwords(GifPath::Three, s.path3, main, at, most, log, s.used);
    BurstResult {
        state: s
            .with_path3(r.path, r.used)
            .with_pending(None, payload_after(at, count, 4 * r.taken)),
        counts: quadwords_alone(u64::from(r.taken), r.packets),
        interrupt: false,
    }
}

// No step.
fn no_burst(s: State) -> BurstResult
    ensures { result ≡ burst_result s no_units false }
{
    BurstResult {
        state: s,
        counts: no_units(),
        interrupt: false,
    }
}

// The payload, where there is any, by channel.
fn give_payload(
    main: &[u8],
    payload: Payload,
    s: State,
    limit: u64,
    data: &mut [u32],
    code: &mut [u8],
    log: &mut [u64],
) -> BurstResult
    requires { Ready main.now s (lent «data».old code.old log.old) × ((s.tags ≡ None) × (s.payload ≡ payload)) }
    ensures { Burst main.now limit (machine s (lent «data».old code.old log.old))
        result.interrupt (of_unit result.counts) (machine result.state (lent «data».new code.new log.new)) }
{
    match payload {
        Payload::Nothing => no_burst(s),
        Payload::Words { at, count } => {
            if count == 0 {
                no_burst(s)
            } else if s.channel == 2 {
                give_quadwords(main, at, count, s, limit, log)
            } else {
                give_words(main, at, count, s, limit, data, code, log)
            }
        }
    }
}

// As many steps as one call takes, at most `limit`; none where a tag or a tag word is next, or a word that is refused.
pub(crate) fn burst(
    main: &[u8],
    s: State,
    limit: u64,
    data: &mut [u32],
    code: &mut [u8],
    log: &mut [u64],
) -> BurstResult
    requires { Ready main.now s (lent «data».old code.old log.old) }
    ensures { Burst main.now limit (machine s (lent «data».old code.old log.old))
        result.interrupt (of_unit result.counts) (machine result.state (lent «data».new code.new log.new)) }
{
    match s.tags {
        None => give_payload(main, s.payload, s, limit, data, code, log),
        Some(_) => no_burst(s),
    }
}
