// A sheet and an actor that has room for what its records make.
ghost use Rattle.std.specs.Prelude.{◌≡◌, List, ℕ};
ghost use Rattle.std.specs.Borrow.{MutBor};
ghost use Rattle.sheet.specs.Acts.{SheetFits, first_item, records_in};
ghost use Rattle.sheet.specs.Editions.{expansion_from};

use super::acts::{Act, act_sheet};
use std::marker::Model;

// The sheet's items are accepted, however long it is, and the actor has room for them. Who holds these facts needs neither the
// measure of the sheet nor the actor's test, which `act_on` makes.
#[derive(Drop)]
pub struct Fitting<'a, A: Act> {
    pub sheet: &'a [u8],
    pub actor: &'a mut A,
}

impl<'a, A: Act> Model for Fitting<'a, A> {
    ghost Value = { List ℕ × MutBor A };

    ghost view = { λ f. (f.sheet.now, f.actor) };

    ghost invariant = { λ f. SheetFits A.Room f.sheet.now (first_item f.sheet.now) f.actor.now };
}

impl<'a, A: Act> Fitting<'a, A> {
    // Does the actor's action with all records of the sheet, and hands the actor back.
    pub fn act(self) -> &'a mut A
        ensures same_reference { result.ghost_name ≡ self.entry.1.ghost_name }
        ensures acted { result.now
            ≡ A.act (records_in (expansion_from self.entry.0 (first_item self.entry.0))) self.entry.1.now }
    {
        let Fitting { sheet, actor } = self;
        act_sheet(sheet, actor);
        actor
    }
}
