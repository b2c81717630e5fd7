//! Orders of the events of a history: which of them fit, and the theorems about them.
//!
//! The definitions stand in `specs/`. A function here does nothing: its contract is a theorem, and it
//! is proved.

#![tactic(auto)]

ghost use Rattle.order.specs.Theorems.{HistoriesAreWellFormed, OpeningAccepts, SerialWordingsAgree, BeforeIsSmallest, FittingKeepsBefore, SearchEnds, SearchIsBounded, SearchDecides, JudgeIsDecided, PlacingIsBest, RunsAreLawful, LawDecidesRuns};
ghost use Rattle.order.specs.Worked.{WorkedCases};

/// The history that events and a rule mean is well formed.
pub fn histories_are_well_formed()
    ensures { HistoriesAreWellFormed }
{}

/// Opening accepts exactly the events that the definition of accepted histories describes.
pub fn opening_accepts()
    ensures { OpeningAccepts }
{}

/// The two wordings of what a serial order is agree on accepted histories.
pub fn serial_wordings_agree()
    ensures { SerialWordingsAgree }
{}

/// Before has its rules, and lies in every relation that has them.
pub fn before_is_smallest()
    ensures { BeforeIsSmallest }
{}

/// A fitting order keeps what is before what, so a clash leaves none.
pub fn fitting_keeps_before()
    ensures { FittingKeepsBefore }
{}

/// The search visits a number of nodes and has an outcome, and each is the only one.
pub fn search_ends()
    ensures { SearchEnds }
{}

/// With p unordered pairs the search visits at most 2^(p+1) - 1 nodes, and p is one number.
pub fn search_is_bounded()
    ensures { SearchIsBounded }
{}

/// A search that fails leaves no fitting order, and one that succeeds has one.
pub fn search_decides()
    ensures { SearchDecides }
{}

/// What judge finds exists and is the only thing.
pub fn judge_is_decided()
    ensures { JudgeIsDecided }
{}

/// At a successful node the placed order exists, fits, and is the preferred one of its kind.
pub fn placing_is_best()
    ensures { PlacingIsBest }
{}

/// Calls that each keep their contract make a run that keeps the law over runs.
pub fn runs_are_lawful()
    ensures { RunsAreLawful }
{}

/// The law over runs leaves nothing free: every list of calls has exactly one list of answers.
pub fn law_decides_runs()
    ensures { LawDecidesRuns }
{}

/// The worked cases come out as they should.
pub fn worked_cases()
    ensures { WorkedCases }
{}
