ghost use Rattle.std.specs.Prelude.{◌≡◌, ◌+◌, ◌-◌, ◌*◌, ◌^◌, ◌<◌, ◌≤◌, length, Some};
ghost use Rattle.history.specs.Lists.{numbered};
ghost use Rattle.packed.specs.Bits.{bit_in};
ghost use Rattle.packed.specs.Reading.{checked, field_read, first_one, season_meant, events_meant};
ghost use Rattle.packed.specs.Few.{few_meant};

use crate::bits::{bit_at, bits_at};
use crate::fault::FileFault;
use crate::header::{Header, bits_used, bytes_used};
use history::{Event, Source};

/// The field of `width` bits from `bit` on; refused where the bytes end before it does.
fn read_field(bytes: &[u8], bit: usize, width: usize) -> Result<u16, FileFault>
    requires narrow { width ≤ 16 }
    requires fits { bit + width + 7 < 2 ^ 64 }
    ensures { result ≡ field_read bytes.now bit width }
{
    if bytes.len() < (bit + width + 7) / 8 {
        return Err(FileFault::Short { bytes: bytes.len() });
    }
    Ok(bits_at(bytes, bit, width))
}

/// The first bit of 1 from `bit` up to `end`.
fn first_one(bytes: &[u8], bit: usize, end: usize) -> Option<usize>
    requires { end ≤ 8 * length bytes.now }
    ensures { result ≡ first_one (bit_in 8 bytes.now) bit (end - bit) }
{
    (bit..end).find(|i| bit_at(bytes, *i) == 1)
}

/// The header of a packed file.
///
/// Refuses, in this order, fewer than 4 bytes, a version other than 1, a count above 256, a length
/// other than the count asks for, and a fill bit of 1.
pub fn check(bytes: &[u8]) -> Result<Header, FileFault>
    ensures { result ≡ checked bytes.now }
{
    // The count ends in the fourth byte: it is read first, so that fewer bytes are refused first.
    let count = read_field(bytes, 16, 9)?;
    let season = read_field(bytes, 4, 12)?;
    let version = read_field(bytes, 0, 4)?;
    if version != 1 {
        return Err(FileFault::Version);
    }
    if count > 256 {
        return Err(FileFault::Count);
    }
    if bytes.len() != bytes_used(count) {
        return Err(FileFault::Length { bytes: bytes.len() });
    }
    match first_one(bytes, bits_used(count), 8 * bytes.len()) {
        Some(bit) => Err(FileFault::Fill { bit }),
        None => Ok(Header { season, count }),
    }
}

/// The event with a number, of bytes that mean so many events.
fn event_at(bytes: &[u8], number: u16) -> Event
    requires above { 0 < number }
    requires within { number ≤ length (events_meant bytes.now) }
    ensures { Some result ≡ numbered (events_meant bytes.now) number }
{
    let at = number as usize * 25;
    Event {
        kind: bits_at(bytes, at, 1) as u8,
        session: bits_at(bytes, at + 1, 4) as u8,
        star: bits_at(bytes, at + 5, 6) as u8,
        revision: bits_at(bytes, at + 11, 14),
    }
}

/// A packed file as a source; bytes that `check` refuses mean season 0 and no events.
///
/// Any bytes may stand here, and each question checks their header again.
#[derive(Clone, Copy)]
pub struct Packed<'a> {
    pub bytes: &'a [u8],
}

impl Source for Packed<'_> {
    ghost season = { λ p. season_meant p.bytes.now };

    ghost events = { λ p. events_meant p.bytes.now };

    ghost few = { λ p. few_meant p.bytes.now };

    fn season(&self) -> u16 {
        check(self.bytes).map_or(0, |header| header.season)
    }

    fn count(&self) -> u16 {
        check(self.bytes).map_or(0, |header| header.count)
    }

    fn event(&self, number: u16) -> Option<Event> {
        if number == 0 || number > self.count() {
            return None;
        }
        Some(event_at(self.bytes, number))
    }
}
