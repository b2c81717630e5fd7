ghost use Rattle.std.specs.Prelude.{◌≡◌, ◌+◌, ◌-◌, ◌*◌, ◌≤◌, true, length, take};
ghost use Rattle.history.specs.Limits.{within_limits};
ghost use Rattle.packed.specs.Bits.{Put};
ghost use Rattle.packed.specs.Layout.{head_word, event_word, size};
ghost use Rattle.packed.specs.Writing.{all_fitting, Writable, overlaid, writing, written};
ghost use Rattle.packed.specs.RoundTrips.{MeansAlone, ReadsBack};

use crate::bits::put_bits;
use crate::fault::WriteRefusal;
use crate::header::{Header, bits_used, bytes_used};
use history::{Event, Source};

/// Whether all events of a source fit.
fn all_fit<S: Source>(source: &S) -> bool
    ensures { result ≡ all_fitting (S.events source.now) }
{
    source.iter_counted().all(|e| e.fits())
}

/// Writes the header.
fn put_head(bytes: &mut [u8], header: Header)
    requires inside { 4 ≤ length bytes.old }
    requires season_fits { header.season ≤ 4095 }
    requires count_fits { header.count ≤ 256 }
    ensures { Put bytes.old bytes.new 0 25 (head_word header.season header.count) }
{
    put_bits(bytes, 0, 4, 1);
    put_bits(bytes, 4, 12, header.season);
    put_bits(bytes, 16, 9, header.count);
}

/// Writes the event with a number.
fn put_event(bytes: &mut [u8], number: u16, e: Event)
    requires inside { number * 25 + 25 ≤ 8 * length bytes.old }
    requires fits { within_limits e ≡ true }
    ensures { Put bytes.old bytes.new (number * 25) 25 (event_word e) }
{
    let at = number as usize * 25;
    put_bits(bytes, at, 1, e.kind as u16);
    put_bits(bytes, at + 1, 4, e.session as u16);
    put_bits(bytes, at + 5, 6, e.star as u16);
    put_bits(bytes, at + 11, 14, e.revision);
}

/// Fills the last byte with zero bits.
fn put_fill(bytes: &mut [u8], count: u16)
    requires { size count ≤ length bytes.old }
    ensures { Put bytes.old bytes.new (25 * (count + 1)) (8 * size count - 25 * (count + 1)) 0 }
{
    let end = bits_used(count);
    put_bits(bytes, end, 8 * bytes_used(count) - end, 0);
}

/// Writes a source that can be written into bytes that have room for it, and answers how many it took.
fn put_all<S: Source>(source: &S, bytes: &mut [u8]) -> usize
    requires can { Writable (S.season source.now) (S.events source.now) }
    requires room { size (length (S.events source.now)) ≤ length bytes.old }
    ensures used { result ≡ size (length (S.events source.now)) }
    ensures after { bytes.new ≡ overlaid (S.season source.now) (S.events source.now) bytes.old }
    ensures back { MeansAlone (take result bytes.new) (S.season source.now) (S.events source.now) }
{
    let count = source.count();
    let season = source.season();
    put_head(bytes, Header { season, count });
    for (i, e) in source.iter_counted().enumerate() {
        put_event(bytes, i as u16 + 1, e);
    }
    put_fill(bytes, count);
    bytes_used(count)
}

/// Writes a source into the front of a buffer, and answers how many bytes it took; the bytes past
/// those stay.
///
/// Refuses, in this order, more than 256 events, an event with a kind above 1, a session above 15, a
/// star above 63 or a revision above 16,383, a season above 4,095, and a buffer that is too short. A
/// refusal leaves the buffer as it was.
pub fn write<S: Source>(source: &S, buffer: &mut [u8]) -> Result<usize, WriteRefusal>
    ensures answer { result ≡ writing (S.season source.now) (S.events source.now) (length buffer.old) }
    ensures after { buffer.new ≡ written (S.season source.now) (S.events source.now) buffer.old result }
    ensures back { ReadsBack (S.season source.now) (S.events source.now) buffer.new result }
{
    let count = source.count();
    if count > 256 {
        return Err(WriteRefusal::Long);
    }
    if !all_fit(source) {
        return Err(WriteRefusal::Outside);
    }
    if source.season() > 4095 {
        return Err(WriteRefusal::Season);
    }
    if buffer.len() < bytes_used(count) {
        return Err(WriteRefusal::Buffer);
    }
    Ok(put_all(source, buffer))
}
