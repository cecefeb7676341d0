//! Compares the packages of texts.

ghost use Rattle.std.specs.Prelude.{IfErr, IfOk};
ghost use Rattle.wac_wit.specs.Read.{AreOfTexts};
ghost use Rattle.wac_wit_changes.specs.Texts.{AreNotCompared, ComparesTexts};
ghost use Rattle.wac_wit_names.specs.declared.features.Features.{Features};

use super::packages::{Read, compare};
use super::report::PackageReport;
use std::alloc::Global;
use wac_component::Types;
use wac_wit::{Features, PairError, SourceFile, Wit, WitError, WitPair, read_both};
use wac_wit_entries::EntryError;

/// What became of the packages of old texts.
#[derive(Drop)]
pub struct ComparedTexts {
    /// The collection that both stand in.
    pub types: Types,
    /// The old packages.
    pub old: Wit,
    /// The new ones.
    pub new: Wit,
    /// What became of each old package.
    pub reports: Vec<PackageReport>,
}

/// Why texts aren't compared.
#[derive(Drop)]
pub enum TextsError {
    /// The old ones aren't read.
    Old(WitError),
    /// The new ones aren't read.
    New(WitError),
    /// What was read isn't compared.
    Entry(EntryError),
}

/// Reads old texts and new ones, and says of each interface and each world of the old packages
/// whether the new ones serve whoever was built against it, as [`compare`] does.
pub fn compare_texts(
    alloc: Global,
    old: &[SourceFile],
    new: &[SourceFile],
    features: Features<'_>,
) -> Result<ComparedTexts, TextsError>
    ensures compared { IfOk result (ComparesTexts old.now new.now features.entry) }
    ensures refused { IfErr result (AreNotCompared old.now new.now features.entry) }
{
    let mut types = Types::new(alloc, 1);
    match read_both(alloc, &mut types, old, new, features) {
        Ok(pair) => compare_pair(alloc, types, pair, old, new),
        Err(PairError::Old(error)) => Err(TextsError::Old(error)),
        Err(PairError::New(error)) => Err(TextsError::New(error)),
    }
}

// Compares the packages of texts, which were read into a collection.
fn compare_pair(
    alloc: Global,
    mut types: Types,
    pair: WitPair,
    old: &[SourceFile],
    new: &[SourceFile],
) -> Result<ComparedTexts, TextsError>
    ensures compared { (features : Features) → AreOfTexts old.now features types pair.old → AreOfTexts new.now features types pair.new → IfOk result (ComparesTexts old.now new.now features) }
    ensures refused { (features : Features) → IfErr result (AreNotCompared old.now new.now features) }
{
    let WitPair {
        old: before,
        new: after,
    } = pair;
    let olds = Read {
        files: old,
        wit: &before,
    };
    let news = Read {
        files: new,
        wit: &after,
    };
    match compare(alloc, &mut types, olds, news) {
        Ok(reports) => Ok(ComparedTexts {
            types,
            old: before,
            new: after,
            reports,
        }),
        Err(error) => Err(TextsError::Entry(error)),
    }
}
