//! What holds of the run of any files.

ghost use Rattle.std.specs.Prelude.{ℕ, List, IfSome};
ghost use Rattle.gunyah.specs.Outcome.{texts_under};
ghost use Rattle.gunyah.specs.Step.{StepRuns};

use gh_io::Files;

/// The run of the files under any names is legal, graced, and by its programs. The function does
/// nothing; its clause is the law.
pub fn law_of_step<F: Files>(files: &F)
    ensures { (names : List (List ℕ)) → IfSome (texts_under (F.contents files.now) names) StepRuns }
{
    let _ = files;
}
