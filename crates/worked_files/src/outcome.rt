//! Whether something was found to hold. What is seen of a value stands behind functions without
//! clauses, so that no proof carries it.

use gh_base::NoMemory;

/// Whether it holds, and there was memory to find out.
pub(crate) fn holds(found: Result<bool, NoMemory>) -> bool {
    match found {
        Ok(found) => found,
        Err(NoMemory) => false,
    }
}
