// An answer in numbers.
ghost use Rattle.std.specs.Prelude.{◌≡◌};
ghost use Rattle.supplier.specs.CheckAnswer.{check_answer};
ghost use Rattle.supplier.specs.Check.{check_kind, check_number, check_offset};

use super::Verdict;
use chain::answer_number;
use sheet::SheetError;

// The kind of an answer.
pub fn kind(answer: Result<Verdict, SheetError>) -> u32
    ensures { result ≡ check_kind (check_answer answer) }
{
    match answer {
        Ok(Verdict::Accepted) => 0,
        Err(_) => 1,
        Ok(Verdict::Stopped(_)) => 2,
        Ok(Verdict::Quadword(_)) => 3,
        Ok(Verdict::Instruction(_)) => 4,
        Ok(Verdict::Entry(_)) => 5,
        Ok(Verdict::Entries(_)) => 6,
    }
}

// Its number: the refusal's, the run's answer, the quadword, instruction or entry, or the number of entries.
pub fn number(answer: Result<Verdict, SheetError>) -> u64
    ensures { result ≡ check_number (check_answer answer) }
{
    match answer {
        Ok(Verdict::Accepted) => 0,
        Ok(Verdict::Stopped(stopped)) => u64::from(answer_number(stopped)),
        Ok(Verdict::Quadword(n) | Verdict::Instruction(n)) => n,
        Ok(Verdict::Entry(n) | Verdict::Entries(n)) => n,
        Err(error) => u64::from(error.refusal.number()),
    }
}

// The offset of the refused record, 0 where there is none.
pub fn offset(answer: Result<Verdict, SheetError>) -> usize
    ensures { result ≡ check_offset (check_answer answer) }
{
    match answer {
        Ok(_) => 0,
        Err(error) => error.offset,
    }
}
