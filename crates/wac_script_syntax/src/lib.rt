//! Reads the lines of a script, one command each, that builds
//! collections of types and asks questions.
//!
//! [`read_line`] reads which command a line is, and tells its words apart; the other
//! readers read words. None looks at anything else: whether an index names an entry that
//! stands, and what a command answers, is the caller's to say. What is read borrows from
//! the line, and so does a [`ScriptError`].
//!
//! # Lines
//!
//! A line is a command and its words, with a single space between two words. Two spaces, and
//! one at the end, would stand beside an empty word, which is malformed. An empty line, and one
//! that begins with `#`, holds no command. A name that stands twice in one map is malformed.
//! Members may stand in any order.
//!
//! | Word | Stands for |
//! |---|---|
//! | `NAME` | a text. Letters, digits and `:/@.+_-[]#*` stand for themselves, every other byte of its UTF-8 is `%` and two upper-case hexadecimal digits; the empty text is `%`, the text `-` is `%2D`. No text is written in another way |
//! | `-` | none, where `\|-` stands below |
//! | `COLL` `N` `SIZE` `K` | a number in decimal digits |
//! | `dN` `rN` `fnN` `iN` `wN` `mN` | the defined type, resource, function, interface, world or core module at index N, from 0 |
//! | `VALUE` | a value type: `u8 s8 u16 s16 u32 s32 u64 s64 f32 f64 char bool string error-context`, `own:rN`, `borrow:rN`, `dN` |
//! | `TYPE` | `rN`, `fnN`, `iN`, `wN`, `mN` or `VALUE` |
//! | `ITEM` | `T:TYPE`, `F:fnN` (a function), `I:iN` (an instance), `C:wN` (a component), `M:mN` (a core module), `V:VALUE` |
//! | `CORE` | a core type: `i32 i64 f32 f64 v128`, or `REF`: `null.HEAP` or `ref.HEAP`, where `HEAP` is one of `func extern any none noextern nofunc eq struct array i31 exn noexn cont nocont` or the index of a type |
//! | `EXTERN` | `func:CORES:RESULTS` and `tag:CORES:RESULTS`, with commas between core types; `table:REF:INITIAL:MAXIMUM\|-:TABLE64:SHARED`; `mem:INITIAL:MAXIMUM\|-:MEMORY64:SHARED:PAGE_SIZE_LOG2\|-`; `global:CORE:MUTABLE:SHARED`. Flags are `0` or `1` |
//!
//! | Command | Asks for |
//! |---|---|
//! | `script NAME` | forgets everything |
//! | `coll N` | begins collection N, or goes back to it |
//! | `def KIND ..` | adds a defined type: `tuple VALUE*`, `list VALUE`, `option VALUE`, `alias VALUE`, `fixed VALUE SIZE`, `map VALUE VALUE`, `result VALUE\|- VALUE\|-`, `stream VALUE\|-`, `future VALUE\|-`, `variant (NAME=VALUE\|-)*`, `record (NAME=VALUE)*`, `flags NAME*`, `enum NAME*` |
//! | `res NAME [rN iN\|-]` | adds a resource, with what it is an alias of and that alias's owner |
//! | `func sync\|async VALUE\|- (NAME=VALUE)*` | adds a function: its result and its parameters |
//! | `iface NAME\|- MEMBER*` | adds an interface: its identifier, uses `u:NAME=iN[=NAME]` (with the name that the type has there) and exports `e:NAME=ITEM` |
//! | `world NAME\|- MEMBER*` | adds a world: also imports `m:NAME=ITEM` |
//! | `module MEMBER*` | adds a core module: imports `m:NAME,NAME=EXTERN` and exports `e:NAME=EXTERN`, of which no table or memory starts above its maximum |
//! | `cache keep`, `cache drop` | shares one cache among questions, or gives each an empty one |
//! | `call NAME COLL ITEM` | hands an item to the next aggregator that is asked about |
//! | a query | an answer: the table of `wac_script_session` |
#![tactic(auto)]

mod commands;
mod entries;
mod error;
mod externs;
mod names;
mod numbers;
mod values;
mod writing;

pub use commands::{Command, Content, ItemCall, Query, read_line};
pub use entries::{EntryName, Sort};
pub use error::{ScriptError, unexpected};
pub use externs::read_extern;
pub use names::{read_name, read_optional_name, split_named};
pub use numbers::{
    read_interface, read_number, read_optional_interface, read_resource, read_small_number,
    read_world,
};
pub use values::{
    Item, TypeWord, Value, read_entry, read_item, read_optional_value, read_resolvable, read_type,
    read_value,
};
pub use writing::{name_word, push_name};
