//! Commands, and the lines that write them.

ghost use Rattle.std.specs.Prelude.{◌≡◌, Ok, None, IsNone, IfOk};
ghost use Rattle.wac_script_syntax.specs.Lines.{HasNoCommand};

use super::entries::{Sort, sort_added_by};
use super::error::{ScriptError, unexpected};
use super::names::read_name;
use super::numbers::read_number;
use super::values::{Item, read_item};
use std::alloc::Global;

/// What a line asks for.
#[derive(Drop)]
pub enum Command<'a> {
    /// `script NAME`: forgets everything, and begins a script of the name that this word writes.
    Script(&'a str),
    /// `coll N`: begins the collection of this number, or goes back to it.
    Collection(u64),
    /// Adds an entry to the collection at hand.
    Add(Content<'a>),
    /// `cache keep`: the questions of the script share one cache from now on.
    KeepCache,
    /// `cache drop`: each question has an empty cache from now on.
    DropCache,
    /// `call NAME COLL ITEM`: hands an item to the next aggregator that is asked about.
    Call(ItemCall),
    /// Asks for an answer.
    Query(Query<'a>),
}

/// What is handed to an aggregator, as words describe it.
#[derive(Drop)]
pub struct ItemCall {
    /// The name of the import.
    pub name: String,
    /// The number of the collection of the item.
    pub collection: u64,
    /// The item.
    pub item: Item,
}

/// The content of an entry, as words describe it.
#[derive(Drop)]
pub struct Content<'a> {
    /// The sort of the entry.
    pub sort: Sort,
    /// The words after the command.
    pub words: Vec<&'a str>,
}

/// A command that is answered, or that no command has the word of.
#[derive(Drop)]
pub struct Query<'a> {
    /// Its first word.
    pub command: &'a str,
    /// The words after it.
    pub words: Vec<&'a str>,
}

fn read_script<'a>(alloc: Global, words: &[&'a str]) -> Result<Command<'a>, ScriptError<'a>> {
    let [word] = *words else {
        return Err(ScriptError::Misused("script NAME"));
    };
    let _ = read_name(alloc, word)?;
    Ok(Command::Script(word))
}

fn read_collection<'a>(words: &[&'a str]) -> Result<Command<'a>, ScriptError<'a>> {
    let [number] = *words else {
        return Err(ScriptError::Misused("coll N"));
    };
    Ok(Command::Collection(read_number(number)?))
}

fn read_cache<'a>(words: &[&'a str]) -> Result<Command<'a>, ScriptError<'a>> {
    match *words {
        ["keep"] => Ok(Command::KeepCache),
        ["drop"] => Ok(Command::DropCache),
        _ => Err(ScriptError::Misused("cache keep|drop")),
    }
}

fn read_call<'a>(alloc: Global, words: &[&'a str]) -> Result<Command<'a>, ScriptError<'a>> {
    let [name, collection, item] = *words else {
        return Err(ScriptError::Misused("call NAME COLL ITEM"));
    };
    Ok(Command::Call(ItemCall {
        name: read_name(alloc, name)?,
        collection: read_number(collection)?,
        item: read_item(item)?,
    }))
}

// An entry that is added, or else a query.
fn adding_or_query<'a>(command: &'a str, words: Vec<&'a str>) -> Command<'a> {
    match sort_added_by(command) {
        Some(sort) => Command::Add(Content { sort, words }),
        None => Command::Query(Query { command, words }),
    }
}

// Reads a command from its first word and the words after it.
fn read_command<'a>(
    alloc: Global,
    command: &'a str,
    words: Vec<&'a str>,
) -> Result<Command<'a>, ScriptError<'a>> {
    match command {
        "script" => read_script(alloc, &words),
        "coll" => read_collection(&words),
        "cache" => read_cache(&words),
        "call" => read_call(alloc, &words),
        _ => Ok(adding_or_query(command, words)),
    }
}

/// Reads a line of a script. An empty line, and one that begins with `#`, holds no command. Of
/// every other line the command is read and its words are told apart; what the words of an entry or
/// a query say is for who carries it out to read.
pub fn read_line(alloc: Global, line: &str) -> Result<Option<Command<'_>>, ScriptError<'_>>
    ensures no_command { HasNoCommand line.now → result ≡ Ok None }
    ensures command { IfOk result (λ read. IsNone read → HasNoCommand line.now) }
{
    if line.is_empty() || line.starts_with('#') {
        return Ok(None);
    }
    let mut words = line.split(' ');
    let command = words.next().unwrap_or("");
    let words: Vec<&str> = words.collect(alloc)?;
    if command.is_empty() || words.contains(&"") {
        return Err(unexpected("single spaces between words", line));
    }
    Ok(Some(read_command(alloc, command, words)?))
}
