use crate::lines::{commit, gives};
use keeper::{KeepFault, Keeper};
use std::alloc::Global;

/// What a keeper must do. Rows and changes are given as lines.
#[derive(Clone, Copy)]
pub enum Step<'a> {
    /// It returns these rows.
    Gives(&'a str),
    /// It makes these changes.
    Commits(&'a str),
    /// It fails to load its rows.
    FailsToLoad,
    /// It fails to make these changes.
    FailsToCommit(&'a str),
}

fn is_fault(step: Step<'_>) -> bool {
    match step {
        Step::Gives(_) | Step::Commits(_) => false,
        Step::FailsToLoad | Step::FailsToCommit(_) => true,
    }
}

fn commits<K: Keeper>(alloc: Global, keeper: &mut K, lines: &str) -> Result<bool, KeepFault> {
    commit(alloc, keeper, lines)?;
    Ok(true)
}

fn takes_step<K: Keeper>(alloc: Global, keeper: &mut K, step: Step<'_>) -> Result<bool, KeepFault> {
    match step {
        Step::Gives(lines) => gives(alloc, keeper, lines),
        Step::Commits(lines) => commits(alloc, keeper, lines),
        Step::FailsToLoad => Ok(gives(alloc, keeper, "") == Err(KeepFault::Failed)),
        Step::FailsToCommit(lines) => { Ok(commit(alloc, keeper, lines) == Err(KeepFault::Failed)) }
    }
}

/// Whether a keeper takes these steps, and counts one fault for each that fails. It has counted none before.
pub fn takes<K: Keeper>(
    alloc: Global,
    keeper: &mut K,
    steps: &[Step<'_>],
) -> Result<bool, KeepFault> {
    let mut faults = 0u64;
    for step in steps {
        faults = faults.saturating_add(u64::from(is_fault(*step)));
        if !takes_step(alloc, keeper, *step)? || keeper.faults() != faults {
            return Ok(false);
        }
    }
    Ok(true)
}
