//! A walk through the nodes of a search.
ghost use Rattle.saturation.specs.Orders.{Roomy};

use arrayvec::ArrayVec;
use saturation::{Cycle, Facts, Mark, Relation};

mod moves;

/// A pair of writes that was chosen, the first to come before the second. The lower one comes first, until that way
/// was tried.
#[derive(Clone, Copy, Default)]
pub struct Choice {
    first: u16,
    second: u16,
    /// The relation before the pair was added.
    mark: Mark,
}

/// How a search stands.
#[derive(Clone, Copy, PartialEq, Eq, Debug)]
pub enum Progress {
    /// Nodes are left to visit.
    Running,
    /// The last node that was visited succeeded.
    Succeeded,
    /// No node is left, and none succeeded.
    Failed,
}

/// Where a search is: the pairs chosen on the way to the node that is visited next, the latest last, and the relation
/// before the last of them is added.
#[derive(Drop)]
pub struct Walk<const N: usize, const W: usize, const T: usize> {
    facts: Facts<N, W>,
    pub(crate) relation: Relation<N, W, T>,
    choices: ArrayVec<Choice, T>,
    /// Whether the node with no choice has a clash.
    root: Result<(), Cycle>,
    ghost roomy: { Roomy N W T },
}
