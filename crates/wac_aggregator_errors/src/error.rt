//! What is answered where an item, or one of a list, isn't aggregated.

use crate::MergeFrame;
use std::alloc::{AllocError, AllocFailed};
use std::{error, fmt};
use wac_mismatch::SubtypeError;

/// Why an item isn't aggregated.
#[derive(Debug, Drop)]
pub enum AggregateError {
    /// The import on the name's track and the item are of different cases.
    Kinds {
        /// What is imported.
        existing: &'static str,
        /// What was to be merged with it.
        found: &'static str,
    },
    /// Two items have no common lower bound.
    Mismatch {
        /// The steps to the innermost two that have none, the outermost first.
        frames: Vec<MergeFrame>,
        /// What is said there of the existing one where the new one is asked for.
        error: SubtypeError,
    },
    /// Types that are used under one name come from interfaces on different tracks.
    UsedInterface {
        /// The name.
        used: String,
        /// The identifier of the interface of the existing one.
        expected: String,
        /// The identifier of the interface of the new one.
        found: String,
    },
    /// Types that are used under one name have different names in their interface.
    UsedName {
        /// The name that they are used under.
        used: String,
    },
    /// A type is used from an interface without identifier.
    NoIdentifier {
        /// The name that it is used under.
        used: String,
    },
    /// The owner of a resource has no identifier.
    OwnerWithoutIdentifier {
        /// The name of the resource.
        resource: String,
    },
    /// While the item was taken in, its name's track got an import.
    Taken {
        /// The name.
        name: String,
    },
    /// The merged interface would lead back to itself.
    Cycle {
        /// The identifier of the interface that was to be merged.
        interface: String,
    },
    /// An allocation failed.
    Memory,
}

impl From<AllocError> for AggregateError {
    ghost use Rattle.std.specs.Prelude.{◌≡◌};
    ghost use Rattle.wac_aggregator_errors.specs.declared.error.AggregateError.TheVariants.{Memory};

    ghost from_gives = { λ _ r. r ≡ Memory };

    fn from(_error: AllocError) -> AggregateError {
        AggregateError::Memory
    }
}

impl<T: Drop> From<AllocFailed<T>> for AggregateError {
    ghost use Rattle.std.specs.Prelude.{◌≡◌};
    ghost use Rattle.wac_aggregator_errors.specs.declared.error.AggregateError.TheVariants.{Memory};

    ghost from_gives = { λ _ r. r ≡ Memory };

    fn from(_error: AllocFailed<T>) -> AggregateError {
        AggregateError::Memory
    }
}

impl error::Error for AggregateError {}

/// Of a mismatch the text of the outermost frame, or without frames that of the error.
impl fmt::Display for AggregateError {
    ghost use Rattle.std.specs.Prelude.{Some};
    ghost use Rattle.wac_aggregator_errors.specs.Texts.{aggregate_error_text};

    ghost output = { λ e. Some (aggregate_error_text e) };

    fn fmt<W: fmt::Write>(&self, f: &mut fmt::Formatter<W>) -> fmt::Result {
        match self {
            AggregateError::Kinds { existing, found } => {
                write!(f, "{existing} cannot be merged with {found}")
            }
            AggregateError::Mismatch { frames, error } => match frames.first() {
                Some(frame) => write!(f, "{frame}"),
                None => write!(f, "{error}"),
            },
            AggregateError::UsedInterface {
                used,
                expected,
                found,
            } => write!(
                f,
                "cannot merge used type `{used}` as it is expected to be from interface `{expected}` but it is from interface `{found}`"
            ),
            AggregateError::UsedName { used } => write!(
                f,
                "cannot merge used type `{used}` as the export names are mismatched"
            ),
            AggregateError::NoIdentifier { used } => write!(
                f,
                "used type `{used}` is from an interface without an identifier"
            ),
            AggregateError::OwnerWithoutIdentifier { resource } => {
                write!(f, "owner of resource `{resource}` has no identifier")
            }
            AggregateError::Taken { name } => {
                write!(f, "import `{name}` was taken while its item was remapped")
            }
            AggregateError::Cycle { interface } => {
                write!(f, "merging interface `{interface}` would close a cycle")
            }
            AggregateError::Memory => write!(f, "out of memory"),
        }
    }
}

/// Why a list of calls isn't aggregated.
#[derive(Debug, Drop)]
pub struct AggregateAllError {
    /// Which call was refused, counted from 0.
    pub at: usize,
    /// Why.
    pub error: AggregateError,
}

impl error::Error for AggregateAllError {}

impl fmt::Display for AggregateAllError {
    ghost use Rattle.std.specs.Prelude.{Some};
    ghost use Rattle.wac_aggregator_errors.specs.Texts.{all_error_text};

    ghost output = { λ e. Some (all_error_text e) };

    fn fmt<W: fmt::Write>(&self, f: &mut fmt::Formatter<W>) -> fmt::Result {
        let at = self.at;
        let error = &self.error;
        write!(f, "call {at}: {error}")
    }
}
