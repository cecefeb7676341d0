//! Whether the components of one world run where another is the target.

use super::answer::{Answer, json_text};
use super::failure::Failure;
use super::finding::find_world;
use super::input::{Input, Texts};
use super::options::{Form, Options};
use super::pointing::{PackageSides, Pointer};
use serde_json::json;
use std::alloc::{AllocError, Global};
use wac_component::Types;
use wac_wit_changes::{Problem, target_problems};

/// Says whether a component that imports and exports all of a world runs where another one is the
/// target. Each is given by its name and its texts.
pub fn targets(
    alloc: Global,
    component: (&str, Texts),
    target: (&str, Texts),
    options: &Options<'_>,
) -> Result<Answer, Failure> {
    let mut types = Types::new(alloc, 1);
    let from = Input::read(alloc, &mut types, component.1, options.features)?;
    let given = find_world(alloc, &types, &from, component.0)?;
    let to = Input::read(alloc, &mut types, target.1, options.features)?;
    let wanted = find_world(alloc, &types, &to, target.0)?;
    let problems = target_problems(alloc, &types, (&from.files, given), (&to.files, wanted))?;
    let pointer = Pointer::new(alloc, &from, &to, PackageSides::Target);
    verdict_of(pointer, (component.0, target.0), &problems, options.form)
}

fn verdict_of(
    mut pointer: Pointer<'_>,
    names: (&str, &str),
    problems: &[Problem],
    form: Form,
) -> Result<Answer, Failure> {
    let text = match form {
        Form::Json => problems_json(&pointer, problems)?,
        _ => problems_text(&mut pointer, names, problems)?,
    };
    let is_yes = problems.is_empty();
    Ok(Answer { is_yes, text })
}

fn problems_text(
    pointer: &mut Pointer<'_>,
    names: (&str, &str),
    problems: &[Problem],
) -> Result<String, AllocError> {
    let (component, target) = names;
    let mut out = String::new(pointer.alloc);
    let verdict = if problems.is_empty() {
        "run"
    } else {
        "don't run"
    };
    pointer.push_all(&mut out, "error", problems)?;
    writeln!(
        out,
        "components of world `{component}` {verdict} where world `{target}` is the target"
    )?;
    Ok(out)
}

fn problems_json(pointer: &Pointer<'_>, problems: &[Problem]) -> Result<String, AllocError> {
    let alloc = pointer.alloc;
    let mut all = Vec::new(alloc);
    for problem in problems {
        all.push(pointer.json(problem)?)?;
    }
    let runs = problems.is_empty();
    json_text(alloc, &json!(in alloc; {"runs": runs, "problems": all})?)
}
