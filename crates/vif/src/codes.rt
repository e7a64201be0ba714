// Codes one after another, with the payload of all but DIRECT: none with its interrupt bit is completed here.
ghost use Rattle.std.specs.Prelude.{◌≡◌, true, false, List, ℕ, ◌+◌, ◌*◌, ◌-◌, ◌/◌, ◌^◌, ◌<◌, ◌≤◌, length};
ghost use Rattle.fields.specs.Counts.{words_alone, plus_units, Counted};
ghost use Rattle.fields.specs.Memory.{word_at};
ghost use Rattle.gif.specs.declared.Path.{Path as PathT};
ghost use Rattle.memories.specs.declared.VifUnit.{VifUnit as VifUnitT};
ghost use Rattle.memories.specs.Units.{quadwords, instructions};
ghost use Rattle.memories.specs.Lengths.{lent};
ghost use Rattle.vif_codes.specs.declared.Waiting.TheVariants.{Nothing, MpgDue, UnpackDue};
ghost use Rattle.vif_codes.specs.Words.{incoming_at};
ghost use Rattle.vif.specs.Step.{mpg_refused};
ghost use Rattle.vif.specs.Feeds.{Fed, fed};
ghost use Rattle.vif.specs.Inner.{UnpackReady, MpgReady, FedReady, fed_in, Leads, Going, words_with, Some, Ahead, WaitingFits, PayloadReady, Takes, taken_with};

use super::WordsResult;
use super::execute::take_code;
use super::mpg::{mpg_refused, store_words};
use super::payload::{col_word, row_word};
use fields::{UnitCounts, plus_units, word_at};
use memories::VifUnit;
use unpack_rules::{Format, Unpacking};
use vif_codes::{Vif, Waiting, incoming_at, mask_word};

// The NOPs without their interrupt bit at the front of n words.
fn nops_ahead(main: &[u8], a: u32, n: u32) -> u32
    requires { a + 4 * n ≤ 1048576 }
    ensures { (result ≤ n) × (result ≡ 0 → 1 ≤ n → word_at main.now a / 16777216 ≡ 0 → ⊥)
        × ((which : VifUnitT) (x : Fed) → x.unit.waiting ≡ Nothing → Leads which main.now a result (words_with result result) x x) }
{
    for k in 0..n {
        if word_at(main, a + 4 * k) / 0x0100_0000 != 0 {
            return k;
        }
    }
    n
}

// How many of n words are taken as payload: never the last one of a code with its interrupt bit.
fn payload_ahead(due: u32, interrupt: bool, n: u32) -> u32
    requires { 1 ≤ due }
    ensures { (result ≤ n) × Some due interrupt result }
{
    if n < due {
        n
    } else if interrupt {
        due - 1
    } else {
        due
    }
}

// One word, unless what it would end has its interrupt bit.
fn one_unless(interrupt: bool) -> u32
    ensures { (result ≤ 1) × ((result ≡ 0 → ⊥) → (result ≡ 1) × (interrupt ≡ false)) }
{
    if interrupt { 0 } else { 1 }
}

// The word of a code without its interrupt bit.
fn code_ahead(main: &[u8], a: u32) -> u32
    ensures { (result ≤ 1) × ((result ≡ 0 → ⊥) → (result ≡ 1) × (word_at main.now a < 2147483648)) }
{
    if word_at(main, a) < 0x8000_0000 { 1 } else { 0 }
}

// The payload words of MPG, none where the first of them is refused.
fn mpg_ahead(count: u32, due: u32, interrupt: bool, main: &[u8], a: u32, n: u32) -> u32
    requires { (1 ≤ due) × (count ≤ 256) }
    ensures { (result ≤ n) × ((result ≡ 0 → ⊥) → Some due interrupt result × (mpg_refused count due (incoming_at main.now a) ≡ false)) }
{
    if mpg_refused(count, due, incoming_at(main, a)) {
        0
    } else {
        payload_ahead(due, interrupt, n)
    }
}

// How many of the next n words are taken at once, by what waits.
fn words_ahead(waiting: Waiting, main: &[u8], a: u32, n: u32) -> u32
    requires { (1 ≤ n) × WaitingFits waiting }
    ensures { (result ≤ n) × ((result ≡ 0 → ⊥) → Ahead waiting main.now a result) }
{
    match waiting {
        Waiting::Nothing => code_ahead(main, a),
        Waiting::MaskDue(i) => one_unless(i),
        Waiting::RowDue { interrupt: i, .. } => one_unless(i),
        Waiting::ColDue { interrupt: i, .. } => one_unless(i),
        Waiting::MpgDue {
            count,
            due,
            interrupt: i,
            ..
        } => mpg_ahead(count, due, i, main, a, n),
        Waiting::UnpackDue(_, u) => payload_ahead(u.due, u.interrupt, n),
        _ => 0,
    }
}

// n payload words of UNPACK, not the last. Path 2 and the other memories are any.
fn unpack_words(
    which: VifUnit,
    unit: Vif,
    f: Format,
    u: Unpacking,
    main: &[u8],
    a: u32,
    n: u32,
    data: &mut [u32],
) -> Vif
    requires { (unit.waiting ≡ UnpackDue f u) × UnpackReady (quadwords which) unit f u «data».old × (n < u.due) × (a + 4 * n ≤ 1048576) }
    ensures { (p : PathT) (used : ℕ) (code log : List ℕ)
        → Leads which main.now a n (words_alone n) (fed unit p used (lent «data».old code log))
        (fed result p used (lent «data».new code log)) }
{
    let size = memories::quadwords(which);
    let registers = unit.write_registers();
    let r = unpack::take_words(size, f, u, registers, main, a, n, unit.row, data).unwrap();
    unit.with_row(r.row)
        .with_waiting(Waiting::UnpackDue(f, r.rest))
}

// All payload words of UNPACK that are due.
fn unpack_rest(
    which: VifUnit,
    unit: Vif,
    f: Format,
    u: Unpacking,
    main: &[u8],
    a: u32,
    data: &mut [u32],
) -> Vif
    requires { (unit.waiting ≡ UnpackDue f u) × UnpackReady (quadwords which) unit f u «data».old × (u.interrupt ≡ false) × (a + 4 * u.due ≤ 1048576) }
    ensures { (p : PathT) (used : ℕ) (code log : List ℕ)
        → Leads which main.now a u.due (words_alone u.due) (fed unit p used (lent «data».old code log))
        (fed result p used (lent «data».new code log)) }
{
    let size = memories::quadwords(which);
    let registers = unit.write_registers();
    let n = u.due - 1;
    let r = unpack::take_words(size, f, u, registers, main, a, n, unit.row, data).unwrap();
    let word = word_at(main, a + 4 * n);
    let row = unpack::take_word(size, f, r.rest, registers, word, r.row, data).unwrap();
    unit.with_row(row).with_waiting(Waiting::Nothing)
}

// n payload words of UNPACK.
fn unpack_payload(
    which: VifUnit,
    unit: Vif,
    f: Format,
    u: Unpacking,
    main: &[u8],
    a: u32,
    n: u32,
    data: &mut [u32],
) -> Vif
    requires { (unit.waiting ≡ UnpackDue f u) × UnpackReady (quadwords which) unit f u «data».old × Some u.due u.interrupt n × (a + 4 * n ≤ 1048576) }
    ensures { (p : PathT) (used : ℕ) (code log : List ℕ)
        → Leads which main.now a n (words_alone n) (fed unit p used (lent «data».old code log))
        (fed result p used (lent «data».new code log)) }
{
    if n < u.due {
        unpack_words(which, unit, f, u, main, a, n, data)
    } else {
        unpack_rest(which, unit, f, u, main, a, data)
    }
}

// What waits of an MPG after n words.
fn mpg_left(address: u32, count: u32, due: u32, interrupt: bool, n: u32) -> Waiting
    requires { n ≤ due }
    ensures { (n < due → result ≡ MpgDue address count (due - n) interrupt) × (n ≡ due → result ≡ Nothing) }
{
    if n < due {
        Waiting::MpgDue {
            address,
            count,
            due: due - n,
            interrupt,
        }
    } else {
        Waiting::Nothing
    }
}

// n payload words of MPG. Path 2 and the other memories are any.
fn mpg_words(
    which: VifUnit,
    unit: Vif,
    address: u32,
    count: u32,
    due: u32,
    interrupt: bool,
    main: &[u8],
    a: u32,
    n: u32,
    code: &mut [u8],
) -> Vif
    requires { (unit.waiting ≡ MpgDue address count due interrupt) × MpgReady (instructions which) address count due code.old
        × (mpg_refused count due (incoming_at main.now a) ≡ false) × Some due interrupt n × (a + 4 * n ≤ 1048576) × (a + 4 * n ≤ length main.now) }
    ensures { (p : PathT) (used : ℕ) (mem log : List ℕ)
        → Leads which main.now a n (words_alone n) (fed unit p used (lent mem code.old log))
        (fed result p used (lent mem code.new log)) }
{
    let size = memories::instructions(which);
    let first = count + count - due;
    store_words(size, address, first, main, a, n, code);
    unit.with_waiting(mpg_left(address, count, due, interrupt, n))
}

// The result of s with words after it, and the NOPs among them.
fn with_codes(s: WordsResult, unit: Vif, used: u64, words: u32, nops: u32) -> WordsResult
    requires { (s.words + words < 2 ^ 32) × (s.counts.steps + words < 2 ^ 64) × Counted s.counts × (nops ≤ words) }
    ensures { result
        ≡ taken_with unit s.path2 used (s.words + words) (plus_units s.counts (words_with words nops)) s.interrupt }
{
    let more = UnitCounts {
        steps: words as u64,
        packets: 0,
        words: words as u64,
        nops: nops as u64,
    };
    WordsResult {
        unit,
        used,
        words: s.words + words,
        counts: plus_units(s.counts, more),
        ..s
    }
}

// n payload words of the code that waits. Path 2, the entries used and the log are any.
fn payload_words(
    which: VifUnit,
    unit: Vif,
    main: &[u8],
    a: u32,
    n: u32,
    data: &mut [u32],
    code: &mut [u8],
) -> Vif
    requires { PayloadReady which unit a n main.now «data».old code.old }
    ensures { (p : PathT) (used : ℕ) (log : List ℕ)
        → Leads which main.now a n (words_alone n) (fed unit p used (lent «data».old code.old log))
        (fed result p used (lent «data».new code.new log)) }
{
    match unit.waiting {
        Waiting::MaskDue(_) => mask_word(unit, word_at(main, a)),
        Waiting::RowDue { due, interrupt } => row_word(unit, due, interrupt, word_at(main, a)),
        Waiting::ColDue { due, interrupt } => col_word(unit, due, interrupt, word_at(main, a)),
        Waiting::MpgDue {
            address,
            count,
            due,
            interrupt: i,
        } => mpg_words(which, unit, address, count, due, i, main, a, n, code),
        Waiting::UnpackDue(f, u) => unpack_payload(which, unit, f, u, main, a, n, data),
        _ => unit,
    }
}

// Codes and their payload, up to the first that is refused or would complete an interrupt, or to DIRECT.
pub(crate) fn take_codes(
    which: VifUnit,
    s: WordsResult,
    main: &[u8],
    a: u32,
    count: u32,
    limit: u64,
    data: &mut [u32],
    code: &mut [u8],
    log: &mut [u64],
) -> WordsResult
    requires { FedReady which (fed_in s (lent «data».old code.old log.old)) × Going limit a count s × (a + 4 * count ≤ length main.now) }
    ensures { Takes which main.now limit a count s (lent «data».old code.old log.old)
        result (lent «data».new code.new log.new) }
{
    let n = ((count - s.words) as u64).min(limit - s.counts.steps) as u32;
    let from = a + 4 * s.words;
    let mut unit = s.unit;
    let mut used = s.used;
    let mut k: u32 = 0;
    let mut nops: u32 = 0;
    // No `for`: k goes on by as many words as are taken at once.
    while k < n {
        let at = from + 4 * k;
        let m = words_ahead(unit.waiting, main, at, n - k);
        if m == 0 {
            return with_codes(s, unit, used, k, nops);
        }
        if let Waiting::Nothing = unit.waiting {
            let j = nops_ahead(main, at, n - k);
            if j != 0 {
                k += j;
                nops += j;
                continue;
            }
            let r = take_code(which, word_at(main, at), unit, data, log, used);
            if r.answer.is_err() {
                return with_codes(s, unit, used, k, nops);
            }
            unit = r.unit;
            used = r.used;
            k += 1;
            continue;
        }
        unit = payload_words(which, unit, main, at, m, data, code);
        k += m;
    }
    with_codes(s, unit, used, k, nops)
}
