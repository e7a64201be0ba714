// Two boards compared.
ghost use Rattle.std.specs.Prelude.{◌≡◌, ◌≤◌, length};
ghost use Rattle.compare.specs.Boards.{memories, board, board_now};
ghost use Rattle.compare.specs.CompareAnswer.{compare_answer};
ghost use Rattle.tejborun.specs.Buffers.{answered};
ghost use Rattle.tejborun.specs.Boards.{found_numbers, compare_answered, compare_call, compare_within_call};

use super::results::put;
use compare::{Board, Comparison, Memories};
use fields::{BUFFER_SHORT, Refusal};

// A board of what is lent: the memories of VIF1 and VIF0, a log and its entries used.
fn make_board<'a>(
    data1: &'a [u32],
    code1: &'a [u8],
    data0: &'a [u32],
    code0: &'a [u8],
    log: &'a [u64],
    used: u64,
) -> Board<'a>
    ensures { board_now result
        ≡ board (memories data1.now code1.now) (memories data0.now code0.now) log.now used }
{
    Board {
        vif1: Memories {
            data: data1,
            code: code1,
        },
        vif0: Memories {
            data: data0,
            code: code0,
        },
        log,
        used,
    }
}

fn found_numbers(c: Comparison) -> [u64; 10]
    ensures { result ≡ found_numbers c }
{
    let u = c.vif1;
    let v = c.vif0;
    [
        u.quadwords.first,
        u.quadwords.count,
        u.instructions.first,
        u.instructions.count,
        c.entries.first,
        c.entries.count,
        v.quadwords.first,
        v.quadwords.count,
        v.instructions.first,
        v.instructions.count,
    ]
}

// Writes what a comparison says, and gives its number: 0 where the boards are the same, 1 where they differ, 100 more than a refusal's.
fn put_answer(res: &mut [u64], answer: Result<Comparison, Refusal>) -> u32
    requires { 10 ≤ length res.old }
    ensures { answered result res.new ≡ compare_answered (compare_answer answer) res.old }
{
    match answer {
        Ok(comparison) => {
            put(res, &found_numbers(comparison));
            u32::from(!compare::same(comparison))
        }
        Err(refusal) => {
            put(res, &[0; 10]);
            100 + refusal.number()
        }
    }
}

#[unsafe(no_mangle)]
pub extern "C" fn tejborun_compare(
    d1a: &[u32],
    c1a: &[u8],
    d0a: &[u32],
    c0a: &[u8],
    la: &[u64],
    ua: u64,
    d1b: &[u32],
    c1b: &[u8],
    d0b: &[u32],
    c0b: &[u8],
    lb: &[u64],
    ub: u64,
    parts: u32,
    res: &mut [u64],
) -> u32
    ensures { answered result res.new
        ≡ compare_call parts
        (board (memories d1a.now c1a.now) (memories d0a.now c0a.now) la.now ua)
        (board (memories d1b.now c1b.now) (memories d0b.now c0b.now) lb.now ub)
        res.old }
{
    if res.len() < 10 {
        return BUFFER_SHORT;
    }
    let a = make_board(d1a, c1a, d0a, c0a, la, ua);
    let b = make_board(d1b, c1b, d0b, c0b, lb, ub);
    put_answer(res, compare::compare(a, b, parts))
}

#[unsafe(no_mangle)]
pub extern "C" fn tejborun_compare_within(
    d1a: &[u32],
    c1a: &[u8],
    d0a: &[u32],
    c0a: &[u8],
    la: &[u64],
    ua: u64,
    d1b: &[u32],
    c1b: &[u8],
    d0b: &[u32],
    c0b: &[u8],
    lb: &[u64],
    ub: u64,
    parts: u32,
    first: u64,
    last: u64,
    res: &mut [u64],
) -> u32
    ensures { answered result res.new
        ≡ compare_within_call parts first last
        (board (memories d1a.now c1a.now) (memories d0a.now c0a.now) la.now ua)
        (board (memories d1b.now c1b.now) (memories d0b.now c0b.now) lb.now ub)
        res.old }
{
    if res.len() < 10 {
        return BUFFER_SHORT;
    }
    let a = make_board(d1a, c1a, d0a, c0a, la, ua);
    let b = make_board(d1b, c1b, d0b, c0b, lb, ub);
    put_answer(res, compare::compare_within(a, b, parts, first, last))
}
