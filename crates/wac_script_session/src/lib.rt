//! What a script has built so far, and the answers to its queries.
//!
//! A [`Session`] carries out one command after the other, as they are read by `wac_script_syntax`.
//!
//! | Query | Answer |
//! |---|---|
//! | `subtype COLL ITEM COLL ITEM co\|contra` | whether the first item fits where the second is asked for: `yes`, or `no: ` and the texts of the frames and of the fault, with ` / ` between them |
//! | `coresub EXTERN EXTERN` | the same of two core externs |
//! | `track NAME` | the track key of the name, or `none` |
//! | `compatible NAME NAME`, `borrows COLL VALUE` | `yes` or `no` |
//! | `contains COLL OTHER TYPE` | whether the first collection contains the type of the other, `yes` or `no` |
//! | `namemap str\|num OPERATION*` | the answers of the operations, ` | `, and the entries of the map in order, each as `KEY=N` |
//! | `pkg NAME VERSION\|- NAME VERSION\|-` | the two keys; `less`, `equal` or `greater`; `same` or `different` |
//! | `package COLL wN` | the interface that is added, and the definitions in order, each as `NAME=ITEM` |
//! | `validate COLL wTARGET wCOMPONENT` | `ok`, or `no` and the lines `not-in-target NAME`, `missing NAME KIND`, `mismatched NAME KIND: TEXT / ..` and `text REPORT`, or `refused: TEXT` |
//! | `implicit COLL wN` | `ok NAME=ITEM ..`, or `refused: TEXT` |
//! | `meet COLL ITEM ITEM`, `join COLL ITEM ITEM` | the item, its canonical tree and `added N`, or `none added N`, for N entries added |
//! | `aggregate shared\|fresh` | of the calls since the last, with one checker and its cache for all of them or with a new one for each: `ok` and, for each import in order, the lines `import NAME TREE` and `meta NAME ID\|- u:NAME=ID[=NAME] ..`, its identifier and its uses in the order of their words, or `meta NAME -`; for each name that was handed in `canon NAME NAME`, the import that it leads to; for each call, from 0, `serves N yes\|no\|missing`, whether that import fits where the item is asked for. Or `no at N: TEXT / ..` |
//! | `tree COLL ITEM` | the canonical text of the item's tree |
//! | `entry COLL ENTRY` | the line that builds the entry, with its names in their order |
//! | `desc COLL ITEM` | the text of the item's kind |
//! | `promote COLL ITEM`, `ty COLL ITEM` | an item, a type |
//! | `resolve COLL VALUE\|rN` | a value type or a resource |
//! | `visit COLL TYPE K` | with a visitor that fails at its Kth call, from 1, or at none for 0: `ok` or `err`, and the indices of the defined types that were visited |
//! | `replace ENTRY CONTENT` | in the collection at hand: `ok`, or `cycle`, and nothing changes |
//! | `core EXTERN` | the sort of the extern, and the text of its type |
//! | `kinds` | the texts of the kinds of functions and of externs |
//! | `count COLL` | the lengths of the six lists |
//!
//! What `meet`, `join` and `package` add stays in the collection. Names are written as words write
//! them (`name_word`), but in the texts of refusals and of package keys, which stand as they are,
//! on one line (a line feed as `\n`, a backslash as `\\`).
#![tactic(auto)]

mod aggregates;
mod answers;
mod collections;
mod comparisons;
mod core_externs;
mod growth;
mod imports;
mod kinds;
mod lines;
mod name_maps;
mod names;
mod packages;
mod questions;
mod session;
mod targets;
mod visits;

pub use aggregates::HandedCalls;
pub use session::Session;
