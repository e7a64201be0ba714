// The plain meaning beside a log: the memories are fed, and the entries that the records mean are compared with those of the log as they come.
ghost use Rattle.std.specs.Prelude.{◌≡◌, ◌+◌, ◌*◌, ◌≤◌, length};
ghost use Rattle.gif.specs.Log.{entry_size};
ghost use Rattle.sheet.specs.Records.{bytes_at};
ghost use Rattle.sheet.specs.Meaning.{entries_at};
ghost use Rattle.sheet.specs.MatchAnswer.{match_answer};
ghost use Rattle.sheet.specs.Match.{same_entry, left, match_of_sheet};
ghost use Rattle.sheet_meaning.specs.Met.{entry_in, next_front, met, met_all, matching_in, with_matching, matched_all, MatchRoom, match_refusal};
ghost use Rattle.sheet_meaning.specs.MeetLaws.{match_nothing, match_on, match_before, match_behind, match_room};

use super::plain::{entry_at, put_instructions, put_vectors, start_entry};
use fields::Refusal;
use gif::Entry;
use memories::VifUnit;
use sheet::{Act, Kind, Record, SheetError, TestedAct, Totals, act_on};

// How many entries at the front are the same, and whether all so far were. The number counts in both cases, so the two stand beside each other.
#[derive(Clone, Copy)]
struct Front {
    leading: u64,
    whole: bool,
}

// A log, and how many of its entries are used.
#[derive(Clone, Copy)]
struct Log<'a> {
    numbers: &'a [u64],
    used: u64,
}

const ENTRY_SIZE: usize = gif::ENTRY_SIZE as usize;

// Whether entry k of a log is this one.
#[tactic(auto, unfolding(sheet::specs::Match::same_entry))]
fn entry_is(log: &[u64], k: u64, e: Entry) -> bool
    requires { entry_size * (k + 1) ≤ length log.now }
    ensures { result ≡ same_entry e (entry_in log.now k) }
{
    let at = ENTRY_SIZE * k as usize;
    log[at] == e.path && log[at + 1] == e.register && log[at + 2] == e.value
}

// The front of n entries once one more is compared with the log's next.
fn next_front(log: Log<'_>, n: u64, e: Entry) -> Front
    requires { entry_size * log.used ≤ length log.numbers.now }
    ensures { result ≡ next_front log.entry.numbers.now log.entry.used n e }
{
    let whole = n < log.used && entry_is(log.numbers, n, e);
    Front {
        leading: n + u64::from(whole),
        whole,
    }
}

// The front once an entry is compared, which moves it where all before it were the same.
fn meet(log: Log<'_>, front: Front, e: Entry) -> Front
    requires { entry_size * log.used ≤ length log.numbers.now }
    ensures { result ≡ met log.entry.numbers.now log.entry.used e front }
{
    if front.whole {
        next_front(log, front.leading, e)
    } else {
        front
    }
}

// The entries of a GS body.
fn meet_entries(sheet: &[u8], body: usize, n: usize, log: Log<'_>, front: Front) -> Front
    requires { (body + 16 * n ≤ length sheet.now) × (entry_size * log.used ≤ length log.numbers.now) }
    ensures { result ≡ met_all log.entry.numbers.now log.entry.used (entries_at (bytes_at sheet.now body (16 * n)) n 0) front }
{
    let mut met = front;
    for j in 0..n {
        met = meet(log, met, entry_at(sheet, body + 16 * j));
    }
    met
}

// The memories that a sheet is fed to, the log beside it, and the front.
#[derive(Drop)]
struct Matcher<'a> {
    data: &'a mut [u32],
    code: &'a mut [u8],
    log: Log<'a>,
    front: Front,
}

impl Act for Matcher<'_> {
    ghost act = { λ rs m. with_matching m (matched_all m.log.numbers.now m.log.used rs (matching_in m)) };

    ghost Room = { λ rs m. MatchRoom m.log.numbers.now m.log.used rs (matching_in m) };

    // A record does to the memories what its row says, and its entries are compared.
    fn take(&mut self, sheet: &[u8], body: usize, found: Record) {
        let n = found.count as usize;
        let a = found.address as usize;
        match found.kind {
            Kind::Data => put_vectors(sheet, body, n, a, self.data),
            Kind::Code => put_instructions(sheet, body, n, a, self.code),
            Kind::Gs => self.front = meet_entries(sheet, body, n, self.log, self.front),
            Kind::Start => self.front = meet(self.log, self.front, start_entry(found.address)),
        }
    }

    ghost nothing = { λ m. match_nothing m };

    ghost onward = { λ rs ss m. match_on rs ss m };

    ghost before = { λ rs ss m h. match_before _ _ rs ss _ h };

    ghost behind = { λ rs ss m h. match_behind _ _ rs ss _ h };
}

impl TestedAct for Matcher<'_> {
    ghost refusal = { λ t m. match_refusal m.log.numbers.now m.log.used (matching_in m) };

    // The lengths: the entries are only compared, and need no room.
    fn test(&self, _sums: Totals) -> Result<(), Refusal> {
        memories::test_lengths(
            VifUnit::Vif1,
            self.data,
            self.code,
            self.log.numbers,
            self.log.used,
        )
    }

    ghost fits = { λ rs m a h. match_room _ _ rs _ h };
}

// Feeds a sheet's records to the memories, which a refusal leaves as they are, and compares their entries with those used of a log.
pub fn match_meaning(
    sheet: &[u8],
    data: &mut [u32],
    code: &mut [u8],
    log: &[u64],
    used: u64,
) -> Result<sheet::Front, SheetError>
    ensures { left (match_answer result) «data».new code.new
        ≡ match_of_sheet sheet.now «data».old code.old log.now used }
{
    memories::test_lengths(VifUnit::Vif1, data, code, log, used)?;
    let mut matcher = Matcher {
        data,
        code,
        log: Log { numbers: log, used },
        front: Front {
            leading: 0,
            whole: true,
        },
    };
    let entries = act_on(sheet, &mut matcher)?.entries;
    Ok(sheet::Front {
        leading: matcher.front.leading,
        entries,
    })
}
