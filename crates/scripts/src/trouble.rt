//! Why a line has no answer.
ghost use Rattle.std.specs.Prelude.{◌≡◌, ◌≢◌, ◌↔◌};

use hex::FromHexError;
use std::alloc::{AllocError, AllocFailed};
use std::io;
use thiserror::Error;

/// A line is none of the language.
#[derive(Clone, Copy, PartialEq, Eq, Debug)]
pub struct Unfit;

/// Why a line has no answer.
#[derive(Debug, Drop, Error)]
pub enum Trouble {
    /// It is none of the language, or does not fit the sources that the script holds.
    #[error("a line that does not fit")]
    Unfit,
    #[error(transparent)]
    Io(io::Error),
    #[error(transparent)]
    Memory(AllocError),
}

impl From<Unfit> for Trouble {
    ghost use Rattle.scripts.specs.declared.trouble.Trouble.TheVariants.{Unfit};

    ghost from_gives = { λ _ t. t ≡ Unfit };

    fn from(_unfit: Unfit) -> Trouble {
        Trouble::Unfit
    }
}

impl From<io::Error> for Trouble {
    ghost use Rattle.scripts.specs.declared.trouble.Trouble.TheVariants.{Io};

    ghost from_gives = { λ e t. t ≡ Io e };

    fn from(e: io::Error) -> Trouble {
        Trouble::Io(e)
    }
}

impl From<AllocError> for Trouble {
    ghost use Rattle.scripts.specs.declared.trouble.Trouble.TheVariants.{Memory};

    ghost from_gives = { λ e t. t ≡ Memory e };

    fn from(e: AllocError) -> Trouble {
        Trouble::Memory(e)
    }
}

impl<T: Drop> From<AllocFailed<T>> for Trouble {
    ghost use Rattle.scripts.specs.declared.trouble.Trouble.TheVariants.{Unfit};

    ghost from_gives = { λ _ t. t ≢ Unfit };

    fn from(e: AllocFailed<T>) -> Trouble {
        Trouble::Memory(AllocError::from(e))
    }
}

impl From<FromHexError> for Trouble {
    ghost use Rattle.hex.specs.declared.error.FromHexError.TheVariants.{OutOfMemory};
    ghost use Rattle.scripts.specs.declared.trouble.Trouble.TheVariants.{Unfit};

    ghost from_gives = { λ e t. (t ≡ Unfit) ↔ (e ≢ OutOfMemory) };

    fn from(e: FromHexError) -> Trouble {
        match e {
            FromHexError::OutOfMemory => Trouble::Memory(AllocError),
            _ => Trouble::Unfit,
        }
    }
}
