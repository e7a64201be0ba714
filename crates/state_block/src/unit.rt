// The unit block: a VIF unit as 32 words.
ghost use Rattle.std.specs.Prelude.{◌≡◌, ◌∷◌, get_or};
ghost use Rattle.state_block.specs.Read.{known_waiting, known_unit};
ghost use Rattle.state_block.specs.UnitBlock.{format_numbered, due_words, mpg_words, unpack_words, waiting_words, unpack_with, waiting_in_block, register_words, unit_block, no_unit, unit_with, unit_in_block};

use super::words::bit_in;
use super::{REGISTER_WORDS, UNIT_WORDS, WAITING_WORDS};
use unpack_rules::{Format, Unpacking};
use vif_codes::{Vif, Waiting};

// Words 21 to 31 of a code that has nothing but its payload due.
#[tactic(auto, using(crate::proofs::WordLaws::bit_from))]
fn due_words(code: u32, interrupt: bool, due: u32) -> [u32; WAITING_WORDS]
    ensures { result ≡ code ∷ due_words interrupt due }
{
    [code, u32::from(interrupt), due, 0, 0, 0, 0, 0, 0, 0, 0]
}

#[tactic(auto, using(crate::proofs::WordLaws::bit_from))]
fn mpg_words(address: u32, count: u32, due: u32, interrupt: bool) -> [u32; WAITING_WORDS]
    ensures { result ≡ 4 ∷ mpg_words address count due interrupt }
{
    [
        4,
        u32::from(interrupt),
        due,
        address,
        count,
        0,
        0,
        0,
        0,
        0,
        0,
    ]
}

#[tactic(auto, using(crate::proofs::WordLaws::bit_from))]
fn unpack_words(f: Format, u: Unpacking) -> [u32; WAITING_WORDS]
    ensures { result ≡ 7 ∷ unpack_words f u }
{
    [
        7,
        u32::from(u.interrupt),
        u.due,
        u.address,
        u.count,
        unpack_rules::format_number(f),
        u32::from(u.usn),
        u32::from(u.masked),
        u.first,
        u.second,
        u.third,
    ]
}

// Words 21 to 31.
fn waiting_words(waiting: Waiting) -> [u32; WAITING_WORDS]
    ensures { result ≡ waiting_words waiting }
{
    match waiting {
        Waiting::Nothing => [0, 0, 0, 0, 0, 0, 0, 0, 0, 0, 0],
        Waiting::MaskDue(interrupt) => due_words(1, interrupt, 1),
        Waiting::RowDue { due, interrupt } => due_words(2, interrupt, due),
        Waiting::ColDue { due, interrupt } => due_words(3, interrupt, due),
        Waiting::MpgDue {
            address,
            count,
            due,
            interrupt,
        } => mpg_words(address, count, due, interrupt),
        Waiting::DirectDue { due, interrupt } => due_words(5, interrupt, due),
        Waiting::DirecthlDue { due, interrupt } => due_words(6, interrupt, due),
        Waiting::UnpackDue(f, u) => unpack_words(f, u),
    }
}

// Words 0 to 20.
#[tactic(auto, using(crate::proofs::WordLaws::bit_from))]
fn register_words(unit: Vif) -> [u32; REGISTER_WORDS]
    ensures { result ≡ register_words unit }
{
    let [r0, r1, r2, r3] = unit.row;
    let [c0, c1, c2, c3] = unit.col;
    [
        unit.cl,
        unit.wl,
        unit.ofst,
        unit.base,
        unit.tops,
        unit.top,
        unit.itops,
        unit.itop,
        u32::from(unit.dbf),
        unit.mode,
        u32::from(unit.mskpath3),
        unit.mark,
        unit.mask,
        r0,
        r1,
        r2,
        r3,
        c0,
        c1,
        c2,
        c3,
    ]
}

// The words of a unit. Inlined: else writing a state's block, which is all that a reset does, takes twice as long.
#[inline(always)]
pub fn unit_block(unit: Vif) -> [u32; UNIT_WORDS]
    ensures { result ≡ unit_block unit }
{
    let r = register_words(unit);
    let w = waiting_words(unit.waiting);
    let mut block = [0; UNIT_WORDS];
    fields::put_words(&mut block, 0, &r);
    fields::put_words(&mut block, REGISTER_WORDS, &w);
    block
}

// The UNPACK that waits, where its format and its bits exist.
fn unpack_in_block(block: &[u32; UNIT_WORDS]) -> Option<Waiting>
    ensures { result ≡ known_waiting (unpack_with (format_numbered (get_or block.now 26 0)) block.now) }
{
    let unpacking = Unpacking {
        address: block[24],
        count: block[25],
        due: block[23],
        usn: bit_in(block[27])?,
        masked: bit_in(block[28])?,
        interrupt: bit_in(block[22])?,
        first: block[29],
        second: block[30],
        third: block[31],
    };
    let format = unpack_rules::format_named(block[26])?;
    Some(Waiting::UnpackDue(format, unpacking))
}

// The code that waits, by words 21 to 31, where they are one's.
fn waiting_in_block(block: &[u32; UNIT_WORDS]) -> Option<Waiting>
    ensures { result ≡ known_waiting (waiting_in_block block.now) }
{
    if block[21] == 0 {
        return Some(Waiting::Nothing);
    }
    let interrupt = bit_in(block[22])?;
    let due = block[23];
    match block[21] {
        1 => (due == 1).then_some(Waiting::MaskDue(interrupt)),
        2 => Some(Waiting::RowDue { due, interrupt }),
        3 => Some(Waiting::ColDue { due, interrupt }),
        4 => Some(Waiting::MpgDue {
            address: block[24],
            count: block[25],
            due,
            interrupt,
        }),
        5 => Some(Waiting::DirectDue { due, interrupt }),
        6 => Some(Waiting::DirecthlDue { due, interrupt }),
        7 => unpack_in_block(block),
        _ => None,
    }
}

// The unit of a block's words, where they are a unit's.
fn unit_in_words(block: &[u32; UNIT_WORDS]) -> Option<Vif>
    ensures { result ≡ known_unit (unit_with (waiting_in_block block.now) block.now) }
{
    Some(Vif {
        cl: block[0],
        wl: block[1],
        ofst: block[2],
        base: block[3],
        tops: block[4],
        top: block[5],
        itops: block[6],
        itop: block[7],
        dbf: bit_in(block[8])?,
        mode: block[9],
        mskpath3: bit_in(block[10])?,
        mark: block[11],
        mask: block[12],
        row: [block[13], block[14], block[15], block[16]],
        col: [block[17], block[18], block[19], block[20]],
        waiting: waiting_in_block(block)?,
    })
}

// The unit of a block, where its words are a unit's.
pub fn unit_in_block(block: &[u32]) -> Option<Vif>
    ensures { result ≡ known_unit (unit_in_block block.now) }
{
    unit_in_words(block.as_array()?)
}

// Stands for the unit of words that are no unit's: out of range, since an STROW that waits has words due.
#[tactic(auto, unfolding(chain_state::specs::Start::reset_state))]
fn no_unit() -> Vif
    ensures { result ≡ no_unit }
{
    let waiting = Waiting::RowDue {
        due: 0,
        interrupt: false,
    };
    Vif {
        waiting,
        ..chain_state::reset().vif1
    }
}

// The unit of a block, or one out of range where there is none.
pub fn unit_given(block: &[u32]) -> Vif
    ensures { result ≡ (unit_in_block block.now).unit }
{
    unit_in_block(block).unwrap_or(no_unit())
}
