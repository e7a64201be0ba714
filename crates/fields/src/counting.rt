// What is counted over completed steps.
#![tactic(auto, unfolding(crate::specs::Counts::one_if, crate::specs::Counts::qwc_under, crate::specs::Counts::plus_units_modulo, crate::specs::Counts::plus_qwc_modulo, crate::specs::Counts::plus_modulo))]

ghost use Rattle.std.specs.Prelude.{◌≡◌, ◌==◌};
ghost use Rattle.fields.specs.Fields.{if};
ghost use Rattle.fields.specs.Counts.{one_if, no_units, one_word, words_alone, one_quadword, quadwords_alone, plus_units_modulo, no_qwc, qwc_under, plus_qwc_modulo, none, of_unit, one_tag, plus_modulo, count_numbers};

use super::{Counts, Qwc, UnitCounts};

// 1 for what is so, 0 for what is not.
pub fn one_if(b: bool) -> u64
    ensures { result ≡ one_if b }
{
    u64::from(b)
}

// Of no step.
pub fn no_units() -> UnitCounts
    ensures { result ≡ no_units }
{
    words_alone(0)
}

// Of a step that took a word, by whether the word is a NOP.
pub fn one_word(nop: bool) -> UnitCounts
    ensures { result ≡ one_word nop }
{
    UnitCounts {
        steps: 1,
        packets: 0,
        words: 1,
        nops: one_if(nop),
    }
}

// Of n steps that took a word each, none a NOP.
pub fn words_alone(n: u64) -> UnitCounts
    ensures { result ≡ words_alone n }
{
    UnitCounts {
        steps: n,
        packets: 0,
        words: n,
        nops: 0,
    }
}

// Of a step that took a quadword, by whether it closed a packet.
pub fn one_quadword(closed: bool) -> UnitCounts
    ensures { result ≡ one_quadword closed }
{
    quadwords_alone(1, one_if(closed))
}

// Of n steps that took a quadword each, and the packets that they closed.
pub fn quadwords_alone(n: u64, packets: u64) -> UnitCounts
    ensures { result ≡ quadwords_alone n packets }
{
    UnitCounts {
        steps: n,
        packets,
        words: 0,
        nops: 0,
    }
}

// Of a unit's steps and those after them.
pub fn plus_units(a: UnitCounts, b: UnitCounts) -> UnitCounts
    ensures { result ≡ plus_units_modulo a b }
{
    UnitCounts {
        steps: a.steps.wrapping_add(b.steps),
        packets: a.packets.wrapping_add(b.packets),
        words: a.words.wrapping_add(b.words),
        nops: a.nops.wrapping_add(b.nops),
    }
}

fn no_qwc() -> Qwc
    ensures { result ≡ no_qwc }
{
    Qwc {
        id0: 0,
        id1: 0,
        id2: 0,
        id3: 0,
        id4: 0,
        id5: 0,
        id6: 0,
        id7: 0,
    }
}

// n where an ID is the one asked for.
fn where_id(id: u32, asked: u32, n: u64) -> u64
    ensures { result ≡ if (id == asked) n 0 }
{
    if id == asked { n } else { 0 }
}

fn qwc_under(id: u32, n: u64) -> Qwc
    ensures { result ≡ qwc_under id n }
{
    Qwc {
        id0: where_id(id, 0, n),
        id1: where_id(id, 1, n),
        id2: where_id(id, 2, n),
        id3: where_id(id, 3, n),
        id4: where_id(id, 4, n),
        id5: where_id(id, 5, n),
        id6: where_id(id, 6, n),
        id7: where_id(id, 7, n),
    }
}

fn plus_qwc(a: Qwc, b: Qwc) -> Qwc
    ensures { result ≡ plus_qwc_modulo a b }
{
    Qwc {
        id0: a.id0.wrapping_add(b.id0),
        id1: a.id1.wrapping_add(b.id1),
        id2: a.id2.wrapping_add(b.id2),
        id3: a.id3.wrapping_add(b.id3),
        id4: a.id4.wrapping_add(b.id4),
        id5: a.id5.wrapping_add(b.id5),
        id6: a.id6.wrapping_add(b.id6),
        id7: a.id7.wrapping_add(b.id7),
    }
}

// Of no step.
pub fn no_counts() -> Counts
    ensures { result ≡ none }
{
    of_unit(no_units())
}

// Of steps that read no tag.
pub fn of_unit(u: UnitCounts) -> Counts
    ensures { result ≡ of_unit u }
{
    Counts {
        steps: u.steps,
        packets: u.packets,
        words: u.words,
        nops: u.nops,
        qwc: no_qwc(),
    }
}

// Of a step that read a tag.
pub fn one_tag(id: u32, qwc: u32) -> Counts
    ensures { result ≡ one_tag id qwc }
{
    Counts {
        steps: 1,
        packets: 0,
        words: 0,
        nops: 0,
        qwc: qwc_under(id, u64::from(qwc)),
    }
}

// Of steps and those after them.
pub fn plus(a: Counts, b: Counts) -> Counts
    ensures { result ≡ plus_modulo a b }
{
    Counts {
        steps: a.steps.wrapping_add(b.steps),
        packets: a.packets.wrapping_add(b.packets),
        words: a.words.wrapping_add(b.words),
        nops: a.nops.wrapping_add(b.nops),
        qwc: plus_qwc(a.qwc, b.qwc),
    }
}

// As numbers one after another.
pub fn count_numbers(a: Counts) -> [u64; 12]
    ensures { result ≡ count_numbers a }
{
    let q = a.qwc;
    [
        a.steps, a.packets, a.words, a.nops, q.id0, q.id1, q.id2, q.id3, q.id4, q.id5, q.id6, q.id7,
    ]
}
