//! What two differ in, before it is a fault.

ghost use Rattle.std.specs.Prelude.{◌≡◌, IfOk, string_bytes};
ghost use Rattle.wac_mismatch.specs.Difference.{IsFaultOf};
ghost use Rattle.wac_mismatch.specs.Place.{expected_of, found_of};

use super::check::SubtypeCheck;
use super::fault::{CountOf, Fault, NameOf, ResultPart};
use super::refusals::expected_found;
use std::alloc::AllocError;

/// What two differ in, the left and the right: a fault with no direction, whose names are borrowed,
/// so that nothing is allocated before a refusal is made.
#[derive(Clone, Copy)]
pub enum Difference<'a> {
    Kinds(&'static str, &'static str),
    Resources(&'a String, &'a String),
    Async(bool, bool),
    ParamCount(usize, usize),
    ParamName(usize, &'a String, &'a String),
    FuncResult(bool, bool),
    FixedSize,
    ResultPart(ResultPart, bool, bool),
    Payload(bool, bool),
    Count(CountOf, usize, usize),
    Name(NameOf, usize, &'a String, &'a String),
    CaseType(&'a String, bool, bool),
    /// The holder, the kind of the export, its name.
    MissingExport(&'static str, &'static str, &'a String),
    /// The kind of the import, its name.
    MissingImport(&'static str, &'a String),
}

impl<'a> Difference<'a> {
    /// The fault in a direction: an error where an allocation fails.
    pub fn fault(self, check: SubtypeCheck) -> Result<Fault, AllocError>
        ensures { IfOk result (IsFaultOf check self.entry) }
    {
        match self {
            Difference::Kinds(a, b) => {
                let (expected, found) = expected_found(check, a, b);
                Ok(Fault::Kind { expected, found })
            }
            Difference::Resources(a, b) => {
                let (expected, found) = texts(check, a, b)?;
                Ok(Fault::Resource { expected, found })
            }
            Difference::Async(a, b) => Ok(Fault::Async {
                expected: expected_found(check, a, b).0,
            }),
            Difference::ParamCount(a, b) => {
                let (expected, found) = expected_found(check, a, b);
                Ok(Fault::ParamCount { expected, found })
            }
            Difference::ParamName(index, a, b) => {
                let (expected, found) = texts(check, a, b)?;
                Ok(Fault::ParamName {
                    index,
                    expected,
                    found,
                })
            }
            Difference::FuncResult(a, b) => Ok(Fault::FuncResult {
                expected: expected_found(check, a, b).0,
            }),
            Difference::FixedSize => Ok(Fault::FixedSize),
            Difference::ResultPart(part, a, b) => Ok(Fault::ResultPart {
                part,
                expected: expected_found(check, a, b).0,
            }),
            Difference::Payload(a, b) => Ok(Fault::Payload {
                expected: expected_found(check, a, b).0,
            }),
            Difference::Count(of, a, b) => {
                let (expected, found) = expected_found(check, a, b);
                Ok(Fault::Count {
                    of,
                    expected,
                    found,
                })
            }
            Difference::Name(of, index, a, b) => {
                let (expected, found) = texts(check, a, b)?;
                Ok(Fault::Name {
                    of,
                    index,
                    expected,
                    found,
                })
            }
            Difference::CaseType(name, a, b) => Ok(Fault::CaseType {
                name: name.clone()?,
                expected: expected_found(check, a, b).0,
            }),
            Difference::MissingExport(holder, kind, name) => Ok(Fault::MissingExport {
                holder,
                kind,
                name: name.clone()?,
                check,
            }),
            Difference::MissingImport(kind, name) => Ok(Fault::MissingImport {
                kind,
                name: name.clone()?,
                check,
            }),
        }
    }
}

// Two names, the expected one first.
fn texts(check: SubtypeCheck, a: &String, b: &String) -> Result<(String, String), AllocError>
    ensures expected { IfOk result (λ r. string_bytes r.0 ≡ expected_of check (string_bytes a.now) (string_bytes b.now)) }
    ensures found { IfOk result (λ r. string_bytes r.1 ≡ found_of check (string_bytes a.now) (string_bytes b.now)) }
{
    let (expected, found) = expected_found(check, a, b);
    Ok((expected.clone()?, found.clone()?))
}
