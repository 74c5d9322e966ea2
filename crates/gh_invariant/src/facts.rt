//! What callers use of valid states and of histories. The functions do nothing; their clauses are
//! laws.

ghost use Rattle.std.specs.Prelude.{◌≡◌, ◌≤◌, ◌+◌, ◌∷◌, ◌++◌, [], ◌<◌, ◌⊎◌, ℕ, Bool, List, Option, Some, None, IsTrue, true, false, find, length};
ghost use Rattle.std.specs.List.{list_all, list_any};
ghost use Rattle.gh_base.specs.declared.kind.Kind.{Kind};
ghost use Rattle.gh_invariant.specs.Effects.{leaves, sets_slot, slots_set};
ghost use Rattle.gh_invariant.specs.Events.{EventFits, EventsFit, changes_of};
ghost use Rattle.gh_invariant.specs.Grants.{grant_fits};
ghost use Rattle.gh_invariant.specs.NamesLiving.{LinkLives, NamesLiving, SpacesLive, living_kind};
ghost use Rattle.gh_invariant.specs.Lives.{lives};
ghost use Rattle.gh_invariant.specs.Premises.{MayChangeAll};
ghost use Rattle.gh_invariant.specs.Valid.{IsValid};
ghost use Rattle.gh_model.specs.Changes.{changed_all};
ghost use Rattle.gh_model.specs.History.{Event, after_event, replay, state_at};
ghost use Rattle.gh_model.specs.References.{references};
ghost use Rattle.gh_model.specs.Rows.{cpu_row, fills};
ghost use Rattle.gh_model.specs.Word.{is_slot, kind_fits, word_at};
ghost use Rattle.gh_model.specs.declared.change.Change.TheVariants.{AddObject, PutCapability};
ghost use Rattle.gh_model.specs.declared.rows.CapabilityRow.{CapabilityRow};
ghost use Rattle.gh_model.specs.declared.rows.CpuRow.{CpuRow};
ghost use Rattle.gh_model.specs.declared.rows.LinkRow.{LinkRow};
ghost use Rattle.gh_model.specs.declared.rows.ObjectRow.{ObjectRow};
ghost use Rattle.gh_model.specs.declared.state.State.{State};

/// A valid capability's object lives, is of its kind, has a reference and isn't retired: so what a
/// look grants isn't retired yet. Its capability space lives.
pub fn capability_names_living()
    ensures { (s : State) (cspace slot : ℕ) (row : CapabilityRow) → IsValid s
        → find (fills cspace slot) s.caps ≡ Some row → row.valid ≡ true → NamesLiving s row }
{}

/// The capability space and the address space of a CPU that hasn't exited live.
pub fn running_cpu_names_living()
    ensures { (s : State) (cpu : ℕ) (row : CpuRow) → IsValid s
        → cpu_row s cpu ≡ Some row → row.exited ≡ false → SpacesLive s row }
{}

/// All that a link names lives.
pub fn link_names_living()
    ensures { (s : State) (test : LinkRow → Bool) (row : LinkRow) → IsValid s
        → find test s.links ≡ Some row → LinkLives s row }
{}

/// An event leaves the word of each slot that none of its changes sets, where the slot's capability
/// space isn't reclaimed.
pub fn event_leaves_words()
    ensures { (s : State) (event : Event) (cspace slot : ℕ)
        → IsTrue (list_all (leaves cspace slot) (changes_of s event))
        → word_at (after_event s event) cspace slot ≡ word_at s cspace slot }
{}

/// An event sets one slot at most.
pub fn event_sets_one_slot()
    ensures { (s : State) (event : Event) → slots_set (changes_of s event) ≤ 1 }
{}

/// The setting of the slot that an event sets is the event's number.
pub fn event_numbers_its_slot()
    ensures { (s : State) (event : Event) (cspace slot : ℕ)
        → IsValid s → EventFits s event → IsTrue (is_slot slot)
        → IsTrue (list_any (sets_slot cspace slot) (changes_of s event))
        → (word_at (after_event s event) cspace slot).set_at ≡ s.entries + 1 }
{}

/// An object that was made lives no more behind an event, or is of the kind that it was: kinds
/// never change, and a serial is never given again.
pub fn kinds_stay()
    ensures { (s : State) (event : Event) (object : ℕ)
        → IsValid s → EventFits s event → object < s.next_serial
        → (living_kind (after_event s event).objects object ≡ None)
        ⊎ (living_kind (after_event s event).objects object ≡ living_kind s.objects object) }
{}

/// What a look granted, of the kind that was needed, is no live object of another kind behind any
/// events.
pub fn found_grants_fit()
    ensures { (s : State) (events : List Event) (cspace slot : ℕ) (row : CapabilityRow)
        (needed : Option Kind) → IsValid s → EventsFit s events
        → find (fills cspace slot) s.caps ≡ Some row → row.valid ≡ true
        → IsTrue (kind_fits needed row.kind)
        → IsTrue (grant_fits (replay s events).objects row.serial needed) }
{}

/// A new object with its master capability, in a capability space that was there, has one
/// reference.
pub fn new_object_has_one_reference()
    ensures { (s : State) (row : ObjectRow) (cap : CapabilityRow) → IsValid s
        → MayChangeAll s (AddObject row ∷ PutCapability cap ∷ [])
        → cap.serial.0 ≡ row.serial.0 → lives s.objects cap.cspace.0 ≡ true
        → references (changed_all s (AddObject row ∷ PutCapability cap ∷ [])) row.serial.0 ≡ 1 }
{}

/// The states of a history stay as it grows.
pub fn states_stay()
    ensures { (s : State) (history more : List Event) (n : ℕ) → n ≤ length history
        → state_at s (history ++ more) n ≡ state_at s history n }
{}
