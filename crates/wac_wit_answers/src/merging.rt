//! Merges the imports of the components of many worlds.

ghost use Rattle.wac_types.specs.HandedIn.{handed_in};
ghost use Rattle.wac_wit_answers.specs.Calls.{AreHandedFrom};

use super::answer::{Answer, json_text};
use super::failure::Failure;
use super::finding::find_world;
use super::handing::{Handed, leading_of, push_imports, push_owner};
use super::input::{Input, Texts};
use super::merge_forms::{merged_dot, merged_json};
use super::merge_refusal::{refusal_json, refusal_text};
use super::merge_text::merged_text;
use super::options::{Form, Options};
use std::alloc::Global;
use std::collections::HashSet;
use wac_component::{Types, WorldId};
use wac_types::{
    AggregateAllError, AggregateError, Call, SubtypeChecker, TypeAggregator, aggregate_all,
};

/// A world whose components' imports are merged, in a collection of its own.
pub(crate) struct Source {
    /// The name that it was found by.
    pub(crate) name: String,
    pub(crate) input: Input,
    pub(crate) types: Types,
    pub(crate) world: WorldId,
}

impl Drop for Source {
    fn drop(self) {
        let Source {
            name: _,
            input: _,
            types: _,
            world: _,
        } = self;
    }
}

impl Source {
    // Reads a world into a collection of this number.
    fn read(
        alloc: Global,
        number: u64,
        name: String,
        texts: Texts,
        options: &Options<'_>,
    ) -> Result<Source, Failure> {
        let mut types = Types::new(alloc, number);
        let input = Input::read(alloc, &mut types, texts, options.features)?;
        let world = find_world(alloc, &types, &input, &name)?;
        Ok(Source {
            name,
            input,
            types,
            world,
        })
    }
}

/// Merges the imports of worlds: each is given by its name and its texts.
pub fn merge(
    alloc: Global,
    worlds: Vec<(String, Texts)>,
    options: &Options<'_>,
) -> Result<Answer, Failure> {
    let mut sources = Vec::new(alloc);
    for (name, texts) in worlds {
        let number = u64::try_from(sources.len()).unwrap_or(0).saturating_add(1);
        sources.push(Source::read(alloc, number, name, texts, options)?)?;
    }
    merged(alloc, &sources, options.form)
}

// Merges the imports of worlds that were read.
fn merged(alloc: Global, sources: &[Source], form: Form) -> Result<Answer, Failure> {
    let mut calls = Vec::new(alloc);
    let mut owners = Vec::new(alloc);
    for index in 0..sources.len() {
        push_imports(&mut calls, sources, index)?;
        push_owner(&mut owners, index, calls.len())?;
    }
    answer_of(alloc, sources, &calls, &owners, form)
}

// Merges what was handed in.
fn answer_of(
    alloc: Global,
    sources: &[Source],
    calls: &[Call<'_>],
    owners: &[usize],
    form: Form,
) -> Result<Answer, Failure>
    requires { AreHandedFrom sources.now (handed_in calls.now) }
{
    let mut cache = HashSet::new(alloc);
    let mut checker = SubtypeChecker::new(&mut cache);
    let handed = Handed {
        sources,
        calls,
        owners,
    };
    // the collection of the merged imports has a number of its own
    match aggregate_all(alloc, 0, calls, &mut checker) {
        Ok(merged) => accepted(alloc, &handed, &merged, form),
        Err(refusal) => refused(alloc, &handed, &refusal, form),
    }
}

// What is said where all is merged.
fn accepted(
    alloc: Global,
    handed: &Handed<'_>,
    merged: &TypeAggregator,
    form: Form,
) -> Result<Answer, Failure> {
    let text = accepted_text(alloc, handed, merged, form)?;
    Ok(Answer { is_yes: true, text })
}

fn accepted_text(
    alloc: Global,
    handed: &Handed<'_>,
    merged: &TypeAggregator,
    form: Form,
) -> Result<String, Failure> {
    let leading = leading_of(alloc, handed.calls, merged)?;
    Ok(match form {
        Form::Text => merged_text(alloc, handed, merged, &leading)?,
        Form::Json => json_text(alloc, &merged_json(alloc, handed, merged, &leading)?)?,
        Form::Dot => merged_dot(alloc, handed, &leading)?,
    })
}

// What is said where an import isn't merged.
fn refused(
    alloc: Global,
    handed: &Handed<'_>,
    refusal: &AggregateAllError,
    form: Form,
) -> Result<Answer, Failure> {
    if let AggregateError::Memory = &refusal.error {
        return Err(Failure::Memory);
    }
    let text = refused_text(alloc, handed, refusal, form)?;
    let is_yes = false;
    Ok(Answer { is_yes, text })
}

fn refused_text(
    alloc: Global,
    handed: &Handed<'_>,
    refusal: &AggregateAllError,
    form: Form,
) -> Result<String, Failure> {
    if form != Form::Json {
        return refusal_text(alloc, handed, refusal);
    }
    Ok(json_text(alloc, &refusal_json(alloc, handed, refusal)?)?)
}
