ghost use Rattle.std.specs.Prelude.{◌≡◌};
ghost use Rattle.report.specs.declared.fault.Fault.TheVariants.{File};
ghost use Rattle.report.specs.Reports.{fault_line};

use packed::FileFault;
use text::{Text, pair_line};

/// A fault of a layer below, carried whole: its layer, its number and its place.
#[derive(Clone, Copy)]
pub enum Fault {
    /// The bytes are refused.
    File(FileFault),
}

impl From<FileFault> for Fault {
    ghost from_gives = { λ f r. r ≡ File f };

    fn from(f: FileFault) -> Fault {
        Fault::File(f)
    }
}

/// The line that tells of a fault.
pub fn fault_line(fault: Fault) -> Text
    ensures { result.bytes ≡ fault_line fault }
{
    let Fault::File(f) = fault;
    pair_line(
        "fault file ",
        f.number().into(),
        " place ",
        f.place() as u64,
    )
}
