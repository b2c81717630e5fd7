//! Runs of calls on a case, where the verdict that stands is told without its steps.
//!
//! Crate `order` has the law over runs with the steps; this one follows from it, and so is no second law. The definitions
//! stand in `specs/`. A function here does nothing: its contract is a theorem, and it is proved.

#![tactic(auto)]

ghost use Rattle.runs.specs.Theorems.{RunsAreLawful, LawDecidesRuns};

/// Calls that each keep their contract make a run that keeps the law over runs.
pub fn runs_are_lawful()
    ensures { RunsAreLawful }
{}

/// The law over runs leaves nothing free: every list of calls has exactly one list of answers.
pub fn law_decides_runs()
    ensures { LawDecidesRuns }
{}
