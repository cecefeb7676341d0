//! The command line of `wac-wit`.

use super::loading::load;
use super::status::{NO, REFUSED, YES, status_of};
use clap::error::ErrorKind;
use clap::{Arg, ArgAction, ArgMatches, Command, Error};
use std::alloc::{AllocError, Global};
use std::io::Write;
use std::rt::Files;
use wac_wit::Features;
use wac_wit_answers::{Answer, Failure, Form, Options, Texts, compat, list, merge, show, targets};

/// What `--help` prints.
const HELP: &str = "\
Answers questions about WIT packages, with proved checks.

Usage: wac-wit [OPTIONS] COMMAND

Commands:
  compat OLD NEW                    whether NEW serves whoever was built against OLD
  targets WORLD IN TARGET IN        whether components of WORLD run where TARGET is the target
  merge WORLD IN [WORLD IN]..       the imports of many components as one world
  show IN [NAME]                    what was read, in one canonical form
  lines IN [NAME]                   the collection, as a script for wac-replay that builds it

IN, OLD and NEW are a file, or a folder whose .wit files are one package, with the packages that it
uses in deps/. WORLD, TARGET and NAME are names in the package, or identifiers as
wasi:cli/command@0.2.4, whose version may be left out.

Options:
      --features A,B    turn on what stands behind @unstable(feature = A) and B
      --all-features    turn on all that stands behind @unstable
      --json            answer as JSON
      --dot             answer as a graph for Graphviz (merge)
  -h, --help            print this

Status: 0 yes, 1 no (or no memory), 2 words or files that are refused
";

/// Carries out the words, of which the first is the program's name: writes the answer to `out`, or
/// why there is none to `err`, and answers the status.
pub fn run<H: Files + AllocGlobal + Clone + Drop, W: Write, E: Write>(
    rt: &H,
    words: &[&str],
    out: &mut W,
    err: &mut E,
) -> u8 {
    let alloc = rt.alloc();
    let matches = match matches_of(alloc, words) {
        Ok(matches) => matches,
        Err(error) => return end_refused(&error, out, err),
    };
    end(answer(rt, &matches), out, err)
}

// What the words say.
fn matches_of<'a>(alloc: Global, words: &'a [&'a str]) -> Result<ArgMatches<'a>, Error> {
    let merge = new_command(alloc, "merge").arg(
        Arg::new(alloc, "PLACES")
            .required(true)
            .num_args(2..)
            .action(ArgAction::Append),
    )?;
    let dot = Arg::new(alloc, "dot")
        .long("dot")
        .action(ArgAction::SetTrue)
        .conflicts_with("json")?;
    let command = new_command(alloc, "wac-wit")
        .bin_name("wac-wit")?
        .subcommand_required(true)
        .disable_help_subcommand(true);
    let command = with_options(alloc, command)?
        .subcommand(with_words(alloc, "compat", &["OLD", "NEW"])?)?
        .subcommand(with_words(alloc, "targets", &["WORLD", "IN", "TARGET", "HOST"])?)?
        .subcommand(merge.arg(dot)?)?
        .subcommand(with_item(alloc, "lines")?)?
        .subcommand(with_item(alloc, "show")?)?;
    command.try_get_matches_from(words)
}

fn new_command<'a>(alloc: Global, name: &'a str) -> Command<'a> {
    Command::new(alloc, name).override_help(HELP)
}

// A command that takes an input, and may take the name of an interface or a world.
fn with_item<'a>(alloc: Global, name: &'a str) -> Result<Command<'a>, AllocError> {
    with_words(alloc, name, &["IN"])?.arg(Arg::new(alloc, "NAME"))
}

// Takes in the options that all commands have.
fn with_options<'a>(alloc: Global, command: Command<'a>) -> Result<Command<'a>, AllocError> {
    let features = Arg::new(alloc, "features")
        .long("features")
        .value_delimiter(',')
        .action(ArgAction::Append)
        .global(true);
    let all_features = Arg::new(alloc, "all-features")
        .long("all-features")
        .action(ArgAction::SetTrue)
        .global(true);
    let json = Arg::new(alloc, "json")
        .long("json")
        .action(ArgAction::SetTrue)
        .global(true);
    command.arg(features)?.arg(all_features)?.arg(json)
}

// A command that takes these words, all of them.
fn with_words<'a>(
    alloc: Global,
    name: &'a str,
    words: &[&'a str],
) -> Result<Command<'a>, AllocError> {
    let mut command = new_command(alloc, name);
    for word in words {
        command = command.arg(Arg::new(alloc, *word).required(true))?;
    }
    Ok(command)
}

// Carries out a command.
fn answer<H: Files + AllocGlobal + Clone + Drop>(
    rt: &H,
    matches: &ArgMatches<'_>,
) -> Result<Answer, Failure> {
    let Some((name, of)) = matches.subcommand() else {
        return Err(Failure::Missing);
    };
    let alloc = rt.alloc();
    let options = options_of(of);
    match name {
        "compat" => {
            let old = texts(rt, of, "OLD")?;
            compat(alloc, old, texts(rt, of, "NEW")?, &options)
        }
        "targets" => {
            let component = (word(of, "WORLD"), texts(rt, of, "IN")?);
            let host = (word(of, "TARGET"), texts(rt, of, "HOST")?);
            targets(alloc, component, host, &options)
        }
        "lines" => list(alloc, texts(rt, of, "IN")?, of.get_str("NAME"), &options),
        "merge" => {
            let places = of.get_strs("PLACES").unwrap_or(&[]);
            merge(alloc, worlds(rt, places)?, &options)
        }
        _ => show(alloc, texts(rt, of, "IN")?, of.get_str("NAME"), &options),
    }
}

// The texts at the place that a word names.
fn texts<H: Files + AllocGlobal + Clone + Drop>(
    rt: &H,
    matches: &ArgMatches<'_>,
    name: &str,
) -> Result<Texts, Failure> {
    load(rt, word(matches, name))
}

// The worlds that words name, each followed by its input.
fn worlds<H: Files + AllocGlobal + Clone + Drop>(
    rt: &H,
    words: &[&str],
) -> Result<Vec<(String, Texts)>, Failure> {
    let alloc = rt.alloc();
    let mut worlds = Vec::new(alloc);
    for place in words.chunks(2) {
        let [name, path] = place else {
            let line = String::from_str(alloc, "merge: expected an input after each world");
            return Err(Failure::refused(line));
        };
        worlds.push((String::from_str(alloc, name)?, load(rt, path)?))?;
    }
    Ok(worlds)
}

// A word that the command line has to have.
fn word<'a>(matches: &ArgMatches<'a>, name: &str) -> &'a str {
    matches.get_str(name).unwrap_or("")
}

fn options_of<'o>(matches: &'o ArgMatches<'_>) -> Options<'o> {
    let features = match matches.get_strs("features") {
        _ if matches.get_flag("all-features") => Features::All,
        Some(names) => Features::Named(names),
        None => Features::Stable,
    };
    let form = if matches.get_flag("json") {
        Form::Json
    } else if matches.get_flag("dot") {
        Form::Dot
    } else {
        Form::Text
    };
    Options { features, form }
}

// Prints the answer, or why there is none, and answers the status.
fn end<W: Write, E: Write>(answer: Result<Answer, Failure>, out: &mut W, err: &mut E) -> u8 {
    match answer {
        Ok(answer) => {
            let status = if answer.is_yes { YES } else { NO };
            status_of(status, out.write_all(answer.text.as_bytes()))
        }
        Err(Failure::Refused(lines)) => status_of(REFUSED, err.write_all(lines.as_bytes())),
        Err(Failure::Memory) => status_of(NO, writeln!(err, "out of memory")),
        Err(Failure::NoIdentifier) => status_of(
            REFUSED,
            writeln!(err, "a type is used from an interface without identifier"),
        ),
        Err(Failure::Missing) => status_of(NO, writeln!(err, "an entry isn't there")),
    }
}

// Prints the help, or what is wrong with the words, and answers the status.
fn end_refused<W: Write, E: Write>(error: &Error, out: &mut W, err: &mut E) -> u8 {
    if error.kind() == ErrorKind::OutOfMemory {
        return status_of(NO, writeln!(err, "out of memory"));
    }
    if error.use_stderr() {
        return status_of(REFUSED, write!(err, "{error}"));
    }
    status_of(YES, write!(out, "{error}"))
}
