ghost use Rattle.packed.specs.RoundTrips.{WrittenReadsBack, ReadWritesBack};

/// Does nothing; its contract is that writing and reading undo each other.
pub fn round_trips()
    ensures there { WrittenReadsBack }
    ensures back { ReadWritesBack }
{}
