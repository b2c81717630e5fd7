//! A record with the pairs that stand.
ghost use Rattle.order.specs.History.{PairsOfEvents};
ghost use Rattle.saturation.specs.Recorded.{history_in};

use super::Recorded;

/// A record with pairs of its events that stand, by number: of each the first has to come before the second.
#[derive(Clone, Copy)]
pub struct Stipulated<'a, const N: usize, const W: usize> {
    pub record: &'a Recorded<N, W>,
    pub pairs: &'a [(u16, u16)],
    ghost inside: { PairsOfEvents (history_in record.now) pairs.now },
}
