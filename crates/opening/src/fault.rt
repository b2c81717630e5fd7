ghost use Rattle.std.specs.Prelude.{◌≡◌};
ghost use Rattle.opening.specs.Faults.{fault_number, fault_place};

/// Why a history is refused, with the number of the event that fails.
#[derive(Clone, Copy, PartialEq, Eq, Debug)]
pub enum HistoryFault {
    /// There are more than 256 events.
    TooMany,
    /// An event has a kind above 1, a session above 15, a star above 63 or a revision above 16,383.
    OutOfLimits(u16),
    /// A write is of revision 0.
    WriteOfZero(u16),
    /// An earlier write has the star and the revision of a write.
    WrittenTwice(u16),
    /// A read is of a revision other than 0 that no write of its star carries.
    NeverWritten(u16),
}

impl HistoryFault {
    /// The fault's number, 11 to 15.
    pub fn number(self) -> u8
        ensures { result ≡ fault_number self }
    {
        // By hand: variants that carry values have no number of their own to cast.
        match self {
            HistoryFault::TooMany => 11,
            HistoryFault::OutOfLimits(_) => 12,
            HistoryFault::WriteOfZero(_) => 13,
            HistoryFault::WrittenTwice(_) => 14,
            HistoryFault::NeverWritten(_) => 15,
        }
    }

    /// The number of the event that fails; of too many, the first past the limit.
    pub fn place(self) -> u16
        ensures { result ≡ fault_place self }
    {
        match self {
            HistoryFault::TooMany => 257,
            HistoryFault::OutOfLimits(n)
            | HistoryFault::WriteOfZero(n)
            | HistoryFault::WrittenTwice(n)
            | HistoryFault::NeverWritten(n) => n,
        }
    }
}
