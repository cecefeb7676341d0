//! Reads packages.

ghost use Rattle.std.specs.Prelude.{◌≡◌, IfErr, IfOk, IfSome, List, OnOk};
ghost use Rattle.wac_wit_scopes.specs.Parsed.{AreParsed};
ghost use Rattle.wac_wit.specs.Read.{AreReadPackages, AreOfTexts};
ghost use Rattle.wac_wit.specs.Reading.{AreMisread, AreStillRefused, IsMisread, IsPairRefused, IsRefusedIn, ResolvesSources, sources_in};
ghost use Rattle.wac_wit.specs.Refusals.{TellsPairRefusals, TellsRefusals};
ghost use Rattle.wac_wit_names.specs.declared.features.Features.{Features as FeaturesOf};
ghost use Rattle.wac_wit_names.specs.declared.sources.SourceFile.{SourceFile as FileOf};
ghost use Rattle.wac_wit_refusals.specs.Reasons.{AreRefusedFor, AllRefusedFor};

use super::packages::{Resolved, Wit};
use super::telling::told;
use std::alloc::{AllocError, Global};
use wac_component::Types;
use wac_wit_names::{
    Fault, Features, MAX_REFUSALS, Reason, Refusals, SourceFile, WitError, WitRefusal,
};
use wac_wit_refusals::confirmed;
use wac_wit_scopes::SourceTrees;
use wac_wit_syntax::{Document, Refusal, SyntaxError, parse};

/// Old packages and new ones, in one collection.
#[derive(Drop)]
pub struct WitPair {
    /// The old ones.
    pub old: Wit,
    /// The new ones.
    pub new: Wit,
}

/// Which of two sets of files isn't read, and why.
#[derive(Drop)]
pub enum PairError {
    /// The old files aren't.
    Old(WitError),
    /// The new files aren't, and the old ones have no refusal.
    New(WitError),
}

/// Reads packages, and puts what they have into a collection.
///
/// Files of one group are one package; a package that is written inside a file is one too. All
/// that is named has to be there. What stands under a feature that is off isn't.
///
/// Where files are refused, what else is wrong in them is looked for, and one to
/// [`MAX_REFUSALS`](super::MAX_REFUSALS) refusals are answered: of the syntax of all files, and
/// where that is right, of what they name. After a refusal the collection may have entries that
/// nothing leads to.
pub fn read_packages(
    alloc: Global,
    types: &mut Types,
    files: &[SourceFile],
    features: Features<'_>,
) -> Result<Wit, WitError>
    ensures read { IfOk result (AreOfTexts files.now features.entry types.new) }
    ensures refused { IfErr result (AreRefusedFor files.now features.entry) }
    ensures told { IfErr result (TellsRefusals files.now) }
{
    let documents = documents_of(alloc, files)?;
    let sources = SourceTrees {
        files,
        documents: &documents,
        features,
    };
    read(alloc, types, &sources)
}

/// Reads old packages and new ones into one collection.
///
/// Each of the two is read as [`read_packages`] reads it: what one of them names isn't looked for
/// in the other. The new files are looked at where the old ones aren't refused.
pub fn read_both(
    alloc: Global,
    types: &mut Types,
    old: &[SourceFile],
    new: &[SourceFile],
    features: Features<'_>,
) -> Result<WitPair, PairError>
    ensures old { IfOk result (λ pair. AreOfTexts old.now features.entry types.new pair.old) }
    ensures new { IfOk result (λ pair. AreOfTexts new.now features.entry types.new pair.new) }
    ensures refused { IfErr result (IsPairRefused old.now new.now features.entry) }
    ensures told { IfErr result (TellsPairRefusals old.now new.now) }
{
    let documents = match documents_of(alloc, old) {
        Ok(documents) => documents,
        Err(error) => return Err(PairError::Old(error)),
    };
    let sources = SourceTrees {
        files: old,
        documents: &documents,
        features,
    };
    read_pair(alloc, types, &sources, new)
}

// The trees of all files, if the syntax of all is right.
fn documents_of(alloc: Global, files: &[SourceFile]) -> Result<Vec<Document>, WitError>
    ensures read { IfOk result (λ documents. AreParsed files.now documents.items) }
    ensures refused { (features : FeaturesOf) → IfErr result (AreRefusedFor files.now features) }
    ensures told { IfErr result (TellsRefusals files.now) }
{
    let mut refusals = Vec::new(alloc);
    match parsed(alloc, files, &mut refusals) {
        Ok(Some(documents)) => Ok(documents),
        Ok(None) => Err(told(files, WitError::Refused(refusals))),
        Err(_) => Err(WitError::Memory),
    }
}

fn parsed(
    alloc: Global,
    files: &[SourceFile],
    refusals: &mut Vec<WitRefusal>,
) -> Result<Option<Vec<Document>>, AllocError>
    ensures read { IfOk result (λ parsed. IfSome parsed (λ documents. AreParsed files.now documents.items)) }
    ensures refused { OnOk result ((features : FeaturesOf) → AllRefusedFor files.now features refusals.old.items → AllRefusedFor files.now features refusals.new.items) }
{
    let mut documents = Vec::new(alloc);
    let mut is_right = true;
    for (index, file) in files.iter().enumerate() {
        match parse(alloc, &file.text) {
            Ok(document) => documents.push(document)?,
            Err(error) => {
                push_misread(refusals, index, error)?;
                is_right = false;
            }
        }
    }
    Ok(is_right.then_some(documents))
}

// Puts what is refused of the syntax of a file last, as far as it is listed.
fn push_misread(
    refusals: &mut Vec<WitRefusal>,
    file: usize,
    error: SyntaxError,
) -> Result<(), AllocError>
    ensures { OnOk result (AreStillRefused (λ files. IsMisread files file error) refusals.old.items refusals.new.items) }
{
    match error {
        SyntaxError::Refused(misread) => push_all(refusals, file, misread),
        SyntaxError::Memory => Err(AllocError),
    }
}

fn push_all(
    refusals: &mut Vec<WitRefusal>,
    file: usize,
    misread: Vec<Refusal>,
) -> Result<(), AllocError>
    ensures { OnOk result (AreStillRefused (λ files. AreMisread files file misread.items) refusals.old.items refusals.new.items) }
{
    for refusal in misread {
        if refusals.len() < MAX_REFUSALS {
            refusals.push(WitRefusal {
                file,
                refusal,
                reason: Some(Reason::Syntax),
            })?;
        }
    }
    Ok(())
}

// Why files aren't read, where a fault ended that and these refusals were noted before.
fn error_of(fault: Fault, mut refusals: Refusals) -> WitError {
    match refusals.note(fault) {
        Ok(()) | Err(Fault::Known | Fault::Enough) => refusals.into_error(),
        Err(Fault::Missing | Fault::Refused(_)) => WitError::Missing,
        Err(Fault::Memory) => WitError::Memory,
    }
}

// Reads files whose syntax is right.
fn read(alloc: Global, types: &mut Types, sources: &SourceTrees<'_>) -> Result<Wit, WitError>
    ensures read { IfOk result (AreReadPackages (sources_in sources.now) types.new) }
    ensures refused { IsRefusedIn sources.now result }
    ensures told { IfErr result (TellsRefusals sources.now.files.now) }
{
    let resolved = resolve(alloc, types, sources)?;
    check(alloc, types, &resolved)?;
    Ok(resolved.into_wit())
}

// Makes entries of what files say, whose syntax is right.
fn resolve<'a>(
    alloc: Global,
    types: &mut Types,
    sources: &SourceTrees<'a>,
) -> Result<Resolved<'a>, WitError>
    ensures made { IfOk result (λ r. r.sources ≡ sources.now) }
    ensures refused { IsRefusedIn sources.now result }
    ensures told { IfErr result (TellsRefusals sources.now.files.now) }
{
    let mut refusals = Refusals::new(alloc);
    match Resolved::new(alloc, types, sources, &mut refusals) {
        Ok(resolved) => Ok(resolved),
        Err(fault) => Err(told(
            sources.files,
            confirmed(alloc, sources, error_of(fault, refusals)),
        )),
    }
}

// Refuses interfaces that aren't what their texts denote.
fn check(alloc: Global, types: &Types, of: &Resolved<'_>) -> Result<(), WitError>
    ensures read { OnOk result (ResolvesSources types.now of.now) }
    ensures refused { (files : List FileOf) (features : FeaturesOf) → IfErr result (AreRefusedFor files features) }
    ensures told { (files : List FileOf) → IfErr result (TellsRefusals files) }
{
    match of.is_denoted(alloc, types) {
        Ok(true) => Ok(()),
        Ok(false) => Err(WitError::Missing),
        Err(_) => Err(WitError::Memory),
    }
}

// Reads old files, whose syntax is right, and new ones.
fn read_pair(
    alloc: Global,
    types: &mut Types,
    old: &SourceTrees<'_>,
    new: &[SourceFile],
) -> Result<WitPair, PairError>
    ensures old { IfOk result (λ pair. AreReadPackages (sources_in old.now) types.new pair.old) }
    ensures new { IfOk result (λ pair. AreOfTexts new.now old.now.features types.new pair.new) }
    ensures refused { AreParsed old.now.files.now old.now.documents.now → IfErr result (IsPairRefused old.now.files.now new.now old.now.features) }
    ensures told { IfErr result (TellsPairRefusals old.now.files.now new.now) }
{
    let resolved = match resolve(alloc, types, old) {
        Ok(resolved) => resolved,
        Err(error) => return Err(PairError::Old(error)),
    };
    let new = read_new(alloc, types, &resolved, new, old.features)?;
    Ok(WitPair {
        old: resolved.into_wit(),
        new,
    })
}

// Reads new files beside old ones, of which entries are made.
fn read_new(
    alloc: Global,
    types: &mut Types,
    old: &Resolved<'_>,
    new: &[SourceFile],
    features: Features<'_>,
) -> Result<Wit, PairError>
    ensures old { OnOk result (ResolvesSources types.new old.now) }
    ensures new { IfOk result (AreOfTexts new.now features.entry types.new) }
    ensures refused { (files : List FileOf) → IfErr result (IsPairRefused files new.now features.entry) }
    ensures told { (files : List FileOf) → IfErr result (TellsPairRefusals files new.now) }
{
    let documents = match documents_of(alloc, new) {
        Ok(documents) => documents,
        Err(error) => return Err(PairError::New(error)),
    };
    let sources = SourceTrees {
        files: new,
        documents: &documents,
        features,
    };
    read_beside(alloc, types, old, &sources)
}

// Reads new files, whose syntax is right, beside old ones, and checks both.
fn read_beside(
    alloc: Global,
    types: &mut Types,
    old: &Resolved<'_>,
    new: &SourceTrees<'_>,
) -> Result<Wit, PairError>
    ensures old { OnOk result (ResolvesSources types.new old.now) }
    ensures new { IfOk result (AreReadPackages (sources_in new.now) types.new) }
    ensures refused { (files : List FileOf) → AreParsed new.now.files.now new.now.documents.now → IfErr result (IsPairRefused files new.now.files.now new.now.features) }
    ensures told { (files : List FileOf) → IfErr result (TellsPairRefusals files new.now.files.now) }
{
    let resolved = match resolve(alloc, types, new) {
        Ok(resolved) => resolved,
        Err(error) => return Err(PairError::New(error)),
    };
    if let Err(error) = check(alloc, types, old) {
        return Err(PairError::Old(error));
    }
    match check(alloc, types, &resolved) {
        Ok(()) => Ok(resolved.into_wit()),
        Err(error) => Err(PairError::New(error)),
    }
}
