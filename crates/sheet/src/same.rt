// Two sheets are equal if they say the same.
ghost use Rattle.std.specs.Prelude.{◌≡◌, Decides};
ghost use Rattle.sheet.specs.declared.flow.Flow as the_flow;
ghost use Rattle.sheet.specs.declared.shape.Sheet as the_sheet;
ghost use Rattle.sheet.specs.Same.{same_flow, same_sheet};
ghost use Rattle.sheet.specs.Sheets.{content_of};
ghost use Rattle.std.specs.Cmp.Rules.{comparing};
ghost use Rattle.std.proofs.Common.{rules};
ghost use Rattle.std.specs.Cmp as Keys;

use crate::flow::Flow;
use crate::shape::Sheet;

// It is the derived `==`, written out so that who calls `eq` is told what it decides.
impl PartialEq for Sheet {
    ghost eq = { same_sheet };

    ghost laws = { Keys.partial_equiv_from_equiv (Prim.search (comparing, rules) depth 9) };

    fn eq(&self, other: &Sheet) -> bool
        ensures value { result ≡ same_sheet self.now other.now }
        ensures decides { Decides result (content_of self.now ≡ content_of other.now) }
    {
        self.flows == other.flows
            && self.lanes == other.lanes
            && self.slots == other.slots
            && self.threshold == other.threshold
    }
}

impl Eq for Sheet {
    ghost laws = { Prim.search (comparing, rules) depth 9 };
}

/// `==` holds of two flows and of two sheets that say the same, and of those alone.
pub fn equality_laws()
    ensures flows { (a b : the_flow.Flow) → ⟦<Flow as PartialEq>⟧.eq a b ≡ same_flow a b }
    ensures flows_alike { (a b : the_flow.Flow) → Decides (same_flow a b) (a ≡ b) }
    ensures sheets { (a b : the_sheet.Sheet) → ⟦<Sheet as PartialEq>⟧.eq a b ≡ same_sheet a b }
    ensures sheets_alike { (a b : the_sheet.Sheet) → Decides (same_sheet a b) (content_of a ≡ content_of b) }
{}
