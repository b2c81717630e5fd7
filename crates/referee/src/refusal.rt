ghost use Rattle.std.specs.Prelude.{◌≡◌};
ghost use Rattle.referee.specs.Numbers.{refusal_number};

/// Why a call is refused. A refused call changes neither the case nor a buffer.
#[derive(Clone, Copy, PartialEq, Eq, Debug)]
pub enum Refusal {
    /// The case was never opened.
    Closed = 20,
    /// No event has this number.
    NoEvent = 21,
    /// An event is no write.
    NoWrite = 22,
    /// The writes are of different stars.
    OtherStar = 23,
    /// It is one write twice.
    SameWrite = 24,
    /// 64 stipulations stand.
    Full = 25,
    /// No stipulation stands.
    NoneStands = 26,
    /// The budget is 0.
    NoBudget = 27,
    /// The verdict is not serial.
    NotSerial = 28,
    /// The buffer is shorter than the count of events.
    ShortBuffer = 29,
}

impl Refusal {
    /// The refusal's number, 20 to 29.
    pub fn number(self) -> u8
        ensures { result ≡ refusal_number self }
    {
        self as u8
    }
}
