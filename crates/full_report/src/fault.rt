ghost use Rattle.std.specs.Prelude.{◌≡◌};
ghost use Rattle.full_report.specs.declared.fault.Fault.TheVariants.{File, History};
ghost use Rattle.full_report.specs.Reports.{fault_line};

use opening::HistoryFault;
use packed::FileFault;
use text::{Text, pair_line};

/// A fault of a layer below, carried whole: its layer, its number and its place.
#[derive(Clone, Copy)]
pub enum Fault {
    /// The bytes are refused.
    File(FileFault),
    /// The history that the bytes mean is refused.
    History(HistoryFault),
}

impl From<FileFault> for Fault {
    ghost from_gives = { λ f r. r ≡ File f };

    fn from(f: FileFault) -> Fault {
        Fault::File(f)
    }
}

impl From<HistoryFault> for Fault {
    ghost from_gives = { λ f r. r ≡ History f };

    fn from(f: HistoryFault) -> Fault {
        Fault::History(f)
    }
}

/// The line that tells of a fault.
pub(crate) fn fault_line(fault: Fault) -> Text
    ensures { result.bytes ≡ fault_line fault }
{
    match fault {
        Fault::File(f) => report::fault_line(f.into()),
        Fault::History(h) => {
            pair_line(
                "fault history ",
                h.number().into(),
                " place ",
                h.place().into(),
            )
        }
    }
}
