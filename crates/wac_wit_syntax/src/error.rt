//! Why a text is refused.

use super::positions::Span;
use std::alloc::{AllocError, AllocFailed};

/// How many refusals of one text are told at most.
pub const MAX_REFUSALS: usize = 20;

/// What is wrong with a text, and where.
#[derive(Debug)]
pub struct Refusal {
    /// The place.
    pub span: Span,
    /// What is wrong, on one line.
    pub message: String,
}

impl Drop for Refusal {
    fn drop(self) {
        let Refusal {
            span: _,
            message: _,
        } = self;
    }
}

/// Why a text wasn't read.
#[derive(Drop)]
pub enum SyntaxError {
    /// The text is no WIT: at least one refusal, in the order of their places, and at most
    /// [`MAX_REFUSALS`].
    Refused(Vec<Refusal>),
    /// An allocation failed.
    Memory,
}

impl From<AllocError> for SyntaxError {
    ghost use Rattle.std.specs.Prelude.{◌≡◌};
    ghost use Rattle.wac_wit_syntax.specs.declared.error.SyntaxError.TheVariants.{Memory};

    ghost from_gives = { λ _ e. e ≡ Memory };

    fn from(_error: AllocError) -> SyntaxError {
        SyntaxError::Memory
    }
}

impl<T: Drop> From<AllocFailed<T>> for SyntaxError {
    fn from(_error: AllocFailed<T>) -> SyntaxError {
        SyntaxError::Memory
    }
}

/// Why an item of a text wasn't read.
#[derive(Clone, Copy)]
pub(crate) enum Fault {
    /// It is refused, and why has been noted.
    Refused,
    /// An allocation failed.
    Memory,
}

impl From<AllocError> for Fault {
    ghost use Rattle.std.specs.Prelude.{◌≡◌};
    ghost use Rattle.wac_wit_syntax.specs.declared.error.Fault.TheVariants.{Memory};

    ghost from_gives = { λ _ e. e ≡ Memory };

    fn from(_error: AllocError) -> Fault {
        Fault::Memory
    }
}

impl<T: Drop> From<AllocFailed<T>> for Fault {
    ghost use Rattle.std.specs.Prelude.{◌≡◌};
    ghost use Rattle.wac_wit_syntax.specs.declared.error.Fault.TheVariants.{Memory};

    ghost from_gives = { λ _ e. e ≡ Memory };

    fn from(_error: AllocFailed<T>) -> Fault {
        Fault::Memory
    }
}
