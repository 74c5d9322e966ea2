//! The objects that a sweep looks at, as lists that are kept: none is looked for.

ghost use Rattle.std.specs.Prelude.{◌≡◌, IsTrue};
ghost use Rattle.gh_events.specs.Rising.{rises, serials_of};
ghost use Rattle.gh_invariant.specs.Valid.{IsValidWithin};
ghost use Rattle.gh_model.specs.declared.state.State.{State};
ghost use Rattle.gh_parts.specs.Past.{rows_of};
ghost use Rattle.gh_parts.specs.Stands.{Stands};
ghost use Rattle.gh_schedules.specs.Sweep.{doomed_objects, retired_objects};

use crate::ledger::Ledger;
use crate::parts::Parts;
use gh_base::Serial;

impl Parts {
    /// The objects that nothing refers to and that aren't retired, by rising serial.
    pub fn doomed_objects(&self) -> &[Serial]
        ensures { (s : State) → Stands self.now s → IsValidWithin s
            → IsTrue (rises (serials_of s.objects)) → result.now ≡ doomed_objects s }
    {
        self.journal.counts.doomed()
    }

    /// The retired objects, by rising serial.
    pub fn retired_objects(&self) -> &[Serial]
        ensures { (s : State) → Stands self.now s → IsValidWithin s
            → IsTrue (rises (serials_of s.objects)) → result.now ≡ retired_objects s }
    {
        self.journal.counts.retired()
    }
}

impl Ledger {
    /// The objects that nothing refers to and that aren't retired, by rising serial. No object is
    /// looked at.
    pub fn doomed_objects(&self) -> &[Serial]
        ensures { result.now ≡ doomed_objects (rows_of self.now) }
    {
        self.parts().doomed_objects()
    }

    /// The retired objects, by rising serial. No object is looked at.
    pub fn retired_objects(&self) -> &[Serial]
        ensures { result.now ≡ retired_objects (rows_of self.now) }
    {
        self.parts().retired_objects()
    }
}
