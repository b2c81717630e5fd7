ghost use Rattle.std.specs.Prelude.{◌≡◌};
ghost use Rattle.packed.specs.Faults.{fault_number, fault_place, refusal_number};

/// Why bytes are refused.
#[derive(Clone, Copy, PartialEq, Eq, Debug)]
pub enum FileFault {
    /// There are fewer than 4 bytes.
    Short { bytes: usize },
    /// The version is not 1.
    Version,
    /// The count is above 256.
    Count,
    /// There are more or fewer bytes than the count asks for.
    Length { bytes: usize },
    /// A bit that fills the last byte is 1; `bit` is the first such.
    Fill { bit: usize },
}

impl FileFault {
    /// The fault's number, 1 to 5.
    pub fn number(self) -> u8
        ensures { result ≡ fault_number self }
    {
        // By hand: variants that carry values have no number of their own to cast.
        match self {
            FileFault::Short { .. } => 1,
            FileFault::Version => 2,
            FileFault::Count => 3,
            FileFault::Length { .. } => 4,
            FileFault::Fill { .. } => 5,
        }
    }

    /// Where the fault is: the byte count where there are too few or too many, else the number of a bit.
    pub fn place(self) -> usize
        ensures { result ≡ fault_place self }
    {
        match self {
            FileFault::Short { bytes } | FileFault::Length { bytes } => bytes,
            FileFault::Version => 0,
            FileFault::Count => 16,
            FileFault::Fill { bit } => bit,
        }
    }
}

/// Why a source is not written.
#[derive(Clone, Copy, PartialEq, Eq, Debug)]
pub enum WriteRefusal {
    /// There are more than 256 events.
    Long = 31,
    /// An event has a kind above 1, a session above 15, a star above 63 or a revision above 16,383.
    Outside = 32,
    /// The season is above 4,095.
    Season = 33,
    /// The buffer is too short.
    Buffer = 34,
}

impl WriteRefusal {
    /// The refusal's number, 31 to 34.
    pub fn number(self) -> u8
        ensures { result ≡ refusal_number self }
    {
        self as u8
    }
}
