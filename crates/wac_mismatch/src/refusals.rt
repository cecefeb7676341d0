//! How a refusal is made, from the innermost place outwards.

ghost use Rattle.std.specs.Prelude.{◌≡◌, Ok, IfOk, string_bytes};
ghost use Rattle.wac_mismatch.specs.Place.{expected_of, found_of, turned};
ghost use Rattle.wac_mismatch.specs.Steps.{IsHere, IsUnder, IsExport, IsCoreImportOf};

use crate::{Fault, Frame, SubtypeCheck, SubtypeError};
use std::alloc::{AllocError, Global};

/// The other direction.
pub fn turned_check(check: SubtypeCheck) -> SubtypeCheck
    ensures { result ≡ turned check }
{
    match check {
        SubtypeCheck::Covariant => SubtypeCheck::Contravariant,
        SubtypeCheck::Contravariant => SubtypeCheck::Covariant,
    }
}

/// What is expected and what is found, of the left and the right.
pub fn expected_found<T>(check: SubtypeCheck, left: T, right: T) -> (T, T)
    ensures expected { result.0 ≡ expected_of check left right }
    ensures found { result.1 ≡ found_of check left right }
{
    match check {
        SubtypeCheck::Covariant => (right, left),
        SubtypeCheck::Contravariant => (left, right),
    }
}

/// A mismatch right here.
pub fn here(alloc: Global, fault: Fault) -> SubtypeError
    ensures { IsHere (λ f. f ≡ fault) result }
{
    SubtypeError::Mismatch {
        frames: Vec::new(alloc),
        fault,
    }
}

/// A mismatch right here, if there was memory for its names.
pub fn here_with(alloc: Global, fault: Result<Fault, AllocError>) -> SubtypeError
    ensures { IsHere (λ f. fault ≡ Ok f) result }
{
    match fault {
        Ok(fault) => here(alloc, fault),
        Err(_) => SubtypeError::Memory,
    }
}

/// The refusal with one more frame outside.
pub fn under(error: SubtypeError, frame: Frame) -> SubtypeError
    ensures { IsUnder (λ f. f ≡ frame) error result }
{
    match error {
        SubtypeError::Mismatch { mut frames, fault } => match frames.insert(0, frame) {
            Ok(()) => SubtypeError::Mismatch { frames, fault },
            Err(_) => SubtypeError::Memory,
        },
        SubtypeError::Memory => SubtypeError::Memory,
    }
}

/// The refusal below the export of this name.
pub fn under_export(error: SubtypeError, name: &String) -> SubtypeError
    ensures { IsUnder (IsExport (string_bytes name.now)) error result }
{
    match name.clone() {
        Ok(name) => under(error, Frame::Export(name)),
        Err(_) => SubtypeError::Memory,
    }
}

/// The refusal below the import of this module and name.
pub fn under_core_import(error: SubtypeError, from: &String, name: &String) -> SubtypeError
    ensures { IsUnder (IsCoreImportOf (string_bytes from.now) (string_bytes name.now)) error result }
{
    match core_import_frame(from, name) {
        Ok(frame) => under(error, frame),
        Err(_) => SubtypeError::Memory,
    }
}

fn core_import_frame(from: &String, name: &String) -> Result<Frame, AllocError>
    ensures { IfOk result (IsCoreImportOf (string_bytes from.now) (string_bytes name.now)) }
{
    Ok(Frame::CoreImport(from.clone()?, name.clone()?))
}
