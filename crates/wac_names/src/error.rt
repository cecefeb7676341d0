//! The error of `NameMap::insert`.

use std::alloc::AllocError;
use std::{error, fmt};

/// Why a name was not inserted.
#[derive(Debug, Drop)]
pub enum NameError {
    /// The name is there already, and shadowing was not allowed.
    Twice {
        /// The name.
        name: String,
    },
    /// An allocation failed.
    Memory,
}

impl From<AllocError> for NameError {
    ghost use Rattle.std.specs.Prelude.{◌≡◌};
    ghost use Rattle.wac_names.specs.declared.error.NameError.TheVariants.{Memory};

    ghost from_gives = { λ _ r. r ≡ Memory };

    fn from(_error: AllocError) -> NameError {
        NameError::Memory
    }
}

impl error::Error for NameError {}

impl fmt::Display for NameError {
    ghost use Rattle.std.specs.Prelude.{Some};
    ghost use Rattle.wac_names.specs.NameErrorText.{name_error_text};

    ghost output = { λ e. Some (name_error_text e) };

    fn fmt<W: fmt::Write>(&self, f: &mut fmt::Formatter<W>) -> fmt::Result {
        match self {
            NameError::Twice { name } => write!(f, "map entry `{name}` defined twice"),
            NameError::Memory => write!(f, "out of memory"),
        }
    }
}
