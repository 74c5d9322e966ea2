//! What holds of every legal call as the history grows.

ghost use Rattle.std.specs.Prelude.{◌++◌, ℕ, List};
ghost use Rattle.gh_model.specs.declared.state.State.{State as Rows};
ghost use Rattle.gh_model.specs.History.{Event};
ghost use Rattle.gh_model.specs.Legal.{CallIs};
ghost use Rattle.gh_model.specs.Marks.{InTurn, Made};

/// What is said of the finished calls of a CPU stays as the history grows. The function does
/// nothing; its clause is the law.
pub fn calls_stay_legal()
    ensures { (boot : Rows) (history more : List Event) (cpu : ℕ) (calls : List Made)
        → InTurn (CallIs boot history cpu) calls
        → InTurn (CallIs boot (history ++ more) cpu) calls }
{}
