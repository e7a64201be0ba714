// What is done with the records of an accepted sheet, one after another: any action, once for the chain and the meaning.
ghost use Rattle.std.specs.Prelude.{ℕ, ◌≡◌, ◌+◌, ◌<◌, [], ◌∷◌, ◌++◌};
ghost use Rattle.fields.specs.Refusals.{refusal_in};
ghost use Rattle.sheet.specs.Records.{record_of, body_length, bytes_at};
ghost use Rattle.sheet.specs.Whole.{AllMeet};
ghost use Rattle.sheet.specs.Groups.{item_at, members_at};
ghost use Rattle.sheet.specs.Editions.{expansion_from, contents_of};
ghost use Rattle.sheet.specs.Sums.{sheet_totals};
ghost use Rattle.sheet.specs.Measured.{measured};
ghost use Rattle.sheet.specs.Acts.{RecordList, RecordThere, done, item_done, members_done, turns_done, ItemFits, MembersFit, TurnsFit, SheetFits, first_item, records_in, acted, acted_on};

use super::heads::{first_item, read_header};
use super::sums::Totals;
use super::totals::measure;
use super::{Item, Record, SheetError};
use fields::Refusal;

// An action on records, with the room that it takes.
pub trait Act {
    // What it makes of records, in order.
    ghost act: { RecordList → Self → Self };

    // There is room for them.
    ghost Room: { RecordList → Self → Type 0 };

    // Does it with a record whose body stands at a place of the sheet.
    fn take(&mut self, sheet: &[u8], body: usize, found: Record)
        requires there { RecordThere sheet.now body found.kind found.count found.address }
        requires room { Room (record_of found.kind found.count found.address (bytes_at sheet.now body (body_length found.kind found.count)) ∷ []) self.old }
        ensures { self.new ≡ act (record_of found.kind found.count found.address (bytes_at sheet.now body (body_length found.kind found.count)) ∷ []) self.old };

    // Nothing is done with no records, and what is done goes on.
    ghost nothing: { (s : Self) → act [] s ≡ s };

    ghost onward: { (rs ss : RecordList) (s : Self) → act ss (act rs s) ≡ act (rs ++ ss) s };

    // Room for records is room for the first ones, and for the others after these.
    ghost before: { (rs ss : RecordList) (s : Self) → Room (rs ++ ss) s → Room rs s };

    ghost behind: { (rs ss : RecordList) (s : Self) → Room (rs ++ ss) s → Room ss (act rs s) };
}

// An action with its test for the room.
pub trait TestedAct: Act {
    ghost use Rattle.sheet.specs.declared.sums.Totals.{Totals};

    // The number of its refusal of records with such sums, 0 where it takes them.
    ghost refusal: { Totals → Self → ℕ };

    // Tests the sums of records before it takes any.
    fn test(&self, sums: Totals) -> Result<(), Refusal>
        ensures { refusal_in result ≡ refusal sums self.now };

    // Where the sums of a sheet's records pass the test there is room for these.
    ghost fits: { (rs : RecordList) (s : Self) → AllMeet rs → refusal (sheet_totals rs) s ≡ 0 → Self.Room rs s };
}

// The item at a place, which is accepted; answers the place after it.
#[cycle(act_group_act_item_act_members)]
fn act_item<A: Act>(sheet: &[u8], depth: u32, at: usize, actor: &mut A) -> usize
    requires { ItemFits A.Room (item_at sheet.now depth at) actor.old }
    ensures { done result actor.new ≡ item_done A.act (item_at sheet.now depth at) actor.old }
{
    match read_header(sheet, depth, at).unwrap().unwrap() {
        Item::Single(found) => {
            actor.take(sheet, at + 6, found);
            found.next
        }
        Item::Group {
            repetitions,
            members,
        } => act_group(sheet, depth - 1, at + 6, repetitions, members, actor),
    }
}

// The members from a place on so many times.
#[cycle(act_group_act_item_act_members)]
fn act_group<A: Act>(
    sheet: &[u8],
    depth: u32,
    at: usize,
    repetitions: u32,
    members: u32,
    actor: &mut A,
) -> usize
    requires { (0 < repetitions) × TurnsFit A.Room repetitions (members_at sheet.now depth members at) actor.old }
    ensures { done result actor.new ≡ turns_done A.act repetitions (members_at sheet.now depth members at) actor.old }
{
    let mut next = at;
    for _turn in 0..repetitions {
        next = act_members(sheet, depth, at, members, actor);
    }
    next
}

// The members from a place on once.
#[cycle(act_group_act_item_act_members)]
fn act_members<A: Act>(sheet: &[u8], depth: u32, at: usize, members: u32, actor: &mut A) -> usize
    requires { MembersFit A.Room (members_at sheet.now depth members at) actor.old }
    ensures { done result actor.new ≡ members_done A.act (members_at sheet.now depth members at) actor.old }
{
    let mut next = at;
    for _member in 0..members {
        next = act_item(sheet, depth, next, actor);
    }
    next
}

// Does it with all records of an accepted sheet.
pub(crate) fn act_sheet<A: Act>(sheet: &[u8], actor: &mut A)
    requires { SheetFits A.Room sheet.now (first_item sheet.now) actor.old }
    ensures { actor.new ≡ A.act (records_in (expansion_from sheet.now (first_item sheet.now))) actor.old }
{
    let mut at = first_item(sheet);
    while at < sheet.len() {
        at = act_item(sheet, 8, at, actor);
    }
}

// Does it with all records of a sheet, and answers their sums. A sheet that is refused and sums that the actor refuses leave it as it is.
pub fn act_on<A: TestedAct>(sheet: &[u8], actor: &mut A) -> Result<Totals, SheetError>
    ensures { acted (measured result) actor.new
        ≡ acted_on A.act A.refusal (contents_of sheet.now) actor.old }
{
    let sums = measure(sheet)?;
    actor.test(sums)?;
    act_sheet(sheet, actor);
    Ok(sums)
}
