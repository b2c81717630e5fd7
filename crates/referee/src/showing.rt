//! Showing the preferred order of a case.
ghost use Rattle.std.specs.Prelude.{◌≡◌, ◌≤◌, true, ◌++◌, length, drop, is_err};
ghost use Rattle.order.specs.Calls.{show as showing, shown};
ghost use Rattle.referee.specs.Meaning.{meaning, reply, turn, TurnOn};
ghost use Rattle.referee.specs.Preferring.{as_preference};

use crate::buffer::Buffer;
use crate::case::Case;
use crate::refusal::Refusal;
use history::Preference;
use placing::place;

impl Case {
    /// Writes the preferred order at the successful node, by event numbers, to the front of a buffer, and answers how many
    /// there are; the rest of the buffer stays.
    pub fn show<P: Preference, B: Buffer>(
        &self,
        preference: &P,
        buffer: &mut B,
    ) -> Result<u16, Refusal>
        ensures law { TurnOn (turn (showing (as_preference P.Preference.prefers P.Preference.lawful preference.now) (B.Buffer.numbers buffer.old)) (reply shown result) (B.Buffer.numbers buffer.new)) (meaning self.now) (meaning self.now) }
        ensures same { is_err result ≡ true → buffer.new ≡ buffer.old }
    {
        self.check_serial()?;
        let count = self.recorded.count();
        if buffer.len() < count {
            return Err(Refusal::ShortBuffer);
        }
        let order = place(self.recorded.events(), &self.node, preference);
        put_front(buffer, order.as_slice());
        Ok(count as u16)
    }
}

/// Puts an order at the front of a buffer.
fn put_front<B: Buffer>(buffer: &mut B, order: &[u16])
    requires { length order.now ≤ length (B.Buffer.numbers buffer.old) }
    ensures { B.Buffer.numbers buffer.new ≡ order.now ++ drop (length order.now) (B.Buffer.numbers buffer.old) }
{
    for (i, &number) in order.iter().enumerate() {
        buffer.put(i, number);
    }
}
