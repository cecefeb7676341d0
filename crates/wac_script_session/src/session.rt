//! What a script has built so far.

use super::aggregates::{HandedCalls, aggregate, call_of};
use super::answers::answer;
use super::collections::Collections;
use super::comparisons::{Cache, subtype};
use super::growth::read_growth;
use std::alloc::{AllocError, Global};
use std::collections::HashSet;
use std::mem;
use wac_script_entries::Replacement;
use wac_script_syntax::{Command, Content, ItemCall, Query, ScriptError, read_entry};

/// The collections that a script has built so far, and what its questions share.
pub struct Session {
    collections: Collections,
    // The number of the collection at hand.
    at_hand: Option<u64>,
    // What the questions before found, while they share a cache; else it is emptied before each.
    cache: Cache,
    shares_cache: bool,
    // What is handed to the next aggregator.
    calls: Vec<ItemCall>,
    // How many queries of the script have been answered.
    answered: u64,
}

// By hand, as of `Types`.
impl Drop for Session {
    fn drop(self) {
        let Session {
            collections: _,
            at_hand: _,
            cache: _,
            shares_cache: _,
            calls: _,
            answered: _,
        } = self;
    }
}

impl Session {
    /// No collections, and no query answered yet.
    pub fn new(alloc: Global) -> Session {
        Session {
            collections: Collections::new(alloc),
            at_hand: None,
            cache: HashSet::new(alloc),
            shares_cache: false,
            calls: Vec::new(alloc),
            answered: 0,
        }
    }

    /// Carries out a command. Gives the lines that it prints, if it prints any, without
    /// the line feed after the last.
    ///
    /// `NoneAtHand`, `NoCollection` and `NoEntry` come where the command names a collection or an
    /// entry that isn't there, `Limits` where it adds or replaces a core module that isn't valid, and
    /// `Memory` is a failed allocation. Refused, a command builds nothing and takes no number.
    pub fn run<'a>(
        &mut self,
        alloc: Global,
        command: Command<'a>,
    ) -> Result<Option<String>, ScriptError<'a>> {
        match command {
            Command::Script(name) => return Ok(Some(self.restart(alloc, name)?)),
            Command::Query(query) => return Ok(Some(self.answer(alloc, &query)?)),
            Command::Collection(number) => self.begin(alloc, number)?,
            Command::Add(content) => self.add(alloc, content)?,
            Command::KeepCache => self.keep_cache(),
            Command::DropCache => self.shares_cache = false,
            Command::Call(call) => self.call(call)?,
        }
        Ok(None)
    }

    /// What all calls hand in, for as many aggregators as are asked. `Memory` is a failed
    /// allocation.
    pub fn handed_calls<'a>(&self, alloc: Global) -> Result<HandedCalls<'_>, ScriptError<'a>> {
        HandedCalls::of(alloc, &self.collections, &self.calls)
    }

    // Forgets everything, and gives the line that says which script begins.
    fn restart(&mut self, alloc: Global, name: &str) -> Result<String, AllocError> {
        *self = Session::new(alloc);
        format!(in alloc; "script {name}")
    }

    // Begins the collection of this number, or goes back to it.
    fn begin(&mut self, alloc: Global, number: u64) -> Result<(), AllocError> {
        self.collections.begin(alloc, number)?;
        self.at_hand = Some(number);
        Ok(())
    }

    // Shares one cache among the questions from now on; one that is shared already stays.
    fn keep_cache(&mut self) {
        if !self.shares_cache {
            self.cache.clear();
        }
        self.shares_cache = true;
    }

    fn add<'a>(&mut self, alloc: Global, content: Content<'a>) -> Result<(), ScriptError<'a>> {
        let Some(number) = self.at_hand else {
            return Err(ScriptError::NoneAtHand);
        };
        self.collections.add(alloc, number, content)
    }

    // Puts a call last, whose item is there.
    fn call<'a>(&mut self, call: ItemCall) -> Result<(), ScriptError<'a>> {
        if let Err(error) = call_of(&self.collections, &call) {
            return Err(error);
        }
        self.calls.push(call)?;
        Ok(())
    }

    // The number of the query in the script, and the answer.
    fn answer<'a>(&mut self, alloc: Global, query: &Query<'a>) -> Result<String, ScriptError<'a>> {
        let number = self.answered.saturating_add(1);
        let mut line = format!(in alloc; "{number} ")?;
        self.push_answer(alloc, &mut line, query.command, &query.words)?;
        self.answered = number;
        Ok(line)
    }

    // Puts the answer to a query last.
    fn push_answer<'a>(
        &mut self,
        alloc: Global,
        text: &mut String,
        command: &'a str,
        words: &[&'a str],
    ) -> Result<(), ScriptError<'a>> {
        match command {
            "subtype" => self.subtype(alloc, text, words),
            "replace" => self.replace(alloc, text, words),
            "meet" | "join" | "package" => {
                let (number, growth) = read_growth(command, words)?;
                self.collections.grow(alloc, text, number, growth)
            }
            "aggregate" => self.aggregate(alloc, text, words),
            _ => answer(alloc, text, &self.collections, command, words),
        }
    }

    // Hands the items of all calls to an aggregator. The next one starts without calls.
    fn aggregate<'a>(
        &mut self,
        alloc: Global,
        text: &mut String,
        words: &[&'a str],
    ) -> Result<(), ScriptError<'a>> {
        let calls = mem::replace(&mut self.calls, Vec::new(alloc));
        aggregate(alloc, text, &self.collections, &calls, words)
    }

    // Asks with the cache that is shared, or with an empty one.
    fn subtype<'a>(
        &mut self,
        alloc: Global,
        text: &mut String,
        words: &[&'a str],
    ) -> Result<(), ScriptError<'a>> {
        if !self.shares_cache {
            self.cache.clear();
        }
        subtype(alloc, text, &self.collections, &mut self.cache, words)
    }

    // Replaces an entry of the collection at hand. The cache is emptied, since what it holds of the
    // entry need not be true any longer.
    fn replace<'a>(
        &mut self,
        alloc: Global,
        text: &mut String,
        words: &[&'a str],
    ) -> Result<(), ScriptError<'a>> {
        let Some((entry, words)) = words.split_first() else {
            return Err(ScriptError::Misused("replace ENTRY CONTENT"));
        };
        let entry = read_entry(entry)?;
        let Some(number) = self.at_hand else {
            return Err(ScriptError::NoneAtHand);
        };
        self.cache.clear();
        let answer = match self.collections.replace(alloc, number, entry, words)? {
            Replacement::Done => "ok",
            Replacement::Cycle => "cycle",
        };
        text.push_str(answer)?;
        Ok(())
    }
}
