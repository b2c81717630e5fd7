ghost use Rattle.std.specs.Prelude.{◌≡◌, ◌≤◌, length};
ghost use Rattle.opening.specs.Opens.{CheckedAs};

use crate::checks::Unchecked;
use crate::fault::HistoryFault;
use arrayvec::ArrayVec;
use history::{Event, Source};

/// The events of a source that has no more than 256.
fn copied<S: Source>(source: &S) -> ArrayVec<Event, 256>
    requires { length (S.Source.events source.now) ≤ 256 }
    ensures { result.items ≡ S.Source.events source.now }
{
    let mut events = ArrayVec::new();
    for e in source.iter_counted() {
        events.push(e);
    }
    events
}

/// Copies the events of a source, and checks them.
///
/// Refuses more than 256 events. Then each check goes over all events before the next begins, and the
/// first event that fails is refused: one outside the limits of a case, a write of revision 0, a write
/// of what an earlier one wrote, and a read of what no event wrote.
pub fn check_source<S: Source>(source: &S) -> Result<ArrayVec<Event, 256>, HistoryFault>
    ensures { CheckedAs (S.Source.events source.now) result }
{
    if source.count() > 256 {
        return Err(HistoryFault::TooMany);
    }
    let copy = copied(source);
    let unchecked = Unchecked {
        events: copy.as_slice(),
    };
    unchecked.check_limits()?;
    unchecked.check_revisions()?;
    unchecked.check_writes()?;
    unchecked.check_reads()?;
    Ok(copy)
}
