//! What a check answers where it says no.

use crate::{Fault, Frame, Path};
use std::alloc::AllocError;
use std::{error, fmt};

/// Why a check of two types says no.
#[derive(Debug, Drop)]
pub enum SubtypeError {
    /// The types disagree.
    Mismatch {
        /// The steps to the place where they do, the outermost first.
        frames: Vec<Frame>,
        /// What they disagree in there.
        fault: Fault,
    },
    /// An allocation failed.
    Memory,
}

impl SubtypeError {
    ghost use Rattle.std.specs.Prelude.{◌≡◌};
    ghost use Rattle.std.specs.Option.{option_copied};
    ghost use Rattle.wac_mismatch.specs.Error.{frames_of, fault_of};

    /// The steps to the place of the mismatch, the outermost first; none without a mismatch.
    pub fn frames(&self) -> &[Frame]
        ensures { result.now ≡ frames_of self.now }
    {
        match self {
            SubtypeError::Mismatch { frames, .. } => frames.as_slice(),
            SubtypeError::Memory => &[],
        }
    }

    /// The whole path, to be printed on one line.
    pub fn path(&self) -> Path<'_>
        ensures { result.error.now ≡ self.now }
    {
        Path { error: self }
    }

    /// What the types disagree in at that place; none without a mismatch.
    pub fn fault(&self) -> Option<&Fault>
        ensures { option_copied result ≡ fault_of self.now }
    {
        match self {
            SubtypeError::Mismatch { fault, .. } => Some(fault),
            SubtypeError::Memory => None,
        }
    }
}

impl From<AllocError> for SubtypeError {
    ghost use Rattle.std.specs.Prelude.{◌≡◌};
    ghost use Rattle.wac_mismatch.specs.declared.error.SubtypeError.TheVariants.{Memory};

    ghost from_gives = { λ _ r. r ≡ Memory };

    fn from(_error: AllocError) -> SubtypeError {
        SubtypeError::Memory
    }
}

impl error::Error for SubtypeError {}

/// The text of the outermost frame, or without frames that of the fault.
impl fmt::Display for SubtypeError {
    ghost use Rattle.std.specs.Prelude.{Some};
    ghost use Rattle.wac_mismatch.specs.Error.{error_text};

    ghost output = { λ e. Some (error_text e) };

    fn fmt<W: fmt::Write>(&self, f: &mut fmt::Formatter<W>) -> fmt::Result {
        match self {
            SubtypeError::Mismatch { frames, fault } => match frames.first() {
                Some(frame) => write!(f, "{frame}"),
                None => write!(f, "{fault}"),
            },
            SubtypeError::Memory => write!(f, "out of memory"),
        }
    }
}
