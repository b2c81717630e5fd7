ghost use Rattle.std.specs.Prelude.{◌≡◌, ℕ, Bool};
ghost use Rattle.history.specs.Rules.{strict, same_star, lag};

use crate::event::{Access, READ, WRITE};

/// Which pairs of events of one session have to keep their order.
///
/// An implementation says by `keeps` whether a pair is kept (true) or free (false), from the kind and
/// the star of the earlier event and the kind and the star of the later one, and from nothing else.
pub trait Rule {
    ghost keeps: { Self → ℕ → ℕ → ℕ → ℕ → Bool };

    /// Whether the pair is kept.
    fn keeps(&self, earlier: Access, later: Access) -> bool
        ensures { result ≡ keeps self.now earlier.kind earlier.star later.kind later.star };
}

/// Keeps every pair.
#[derive(Clone, Copy)]
pub struct Strict;

impl Rule for Strict {
    ghost keeps = { λ _. strict };

    fn keeps(&self, _earlier: Access, _later: Access) -> bool {
        true
    }
}

/// Keeps the pairs of one star.
#[derive(Clone, Copy)]
pub struct Star;

impl Rule for Star {
    ghost keeps = { λ _. same_star };

    fn keeps(&self, earlier: Access, later: Access) -> bool {
        earlier.star == later.star
    }
}

/// Keeps every pair but a write followed by a read of another star.
#[derive(Clone, Copy)]
pub struct Lag;

impl Rule for Lag {
    ghost keeps = { λ _. lag };

    fn keeps(&self, earlier: Access, later: Access) -> bool {
        match (earlier.kind, later.kind) {
            (WRITE, READ) => earlier.star == later.star,
            _ => true,
        }
    }
}
