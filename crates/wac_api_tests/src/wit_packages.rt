//! WIT packages: the interfaces that are made of them, written again, and what is said of packages
//! that are refused.

use std::alloc::{AllocError, Global};
use std::test::Fail;
use wac_types::Types;
use wac_wit::{Features, SourceFile, WitError, read_packages};
use wac_wit_text::Printer;

// All interfaces of a text, as they are written again, or the reports of its refusals.
fn written(alloc: Global, text: &str) -> Result<String, AllocError> {
    let file = SourceFile {
        name: String::from_str(alloc, "a.wit")?,
        text: String::from_str(alloc, text)?,
        group: 0,
    };
    let files = vec![in alloc; file]?;
    let mut types = Types::new(alloc, 1);
    let wit = match read_packages(alloc, &mut types, &files, Features::Stable) {
        Ok(wit) => wit,
        Err(error) => return reported(alloc, &error, &files),
    };
    let mut printer = Printer::new(alloc, &types);
    for package in &wit.packages {
        for (name, id) in &package.interfaces {
            printer.put_interface(name, *id)?;
        }
    }
    Ok(printer.text)
}

fn reported(alloc: Global, error: &WitError, files: &[SourceFile]) -> Result<String, AllocError> {
    let mut out = String::new(alloc);
    match error {
        WitError::Memory => Err(AllocError),
        _ => {
            error.push_report(&mut out, files)?;
            Ok(out)
        }
    }
}

// Interfaces, of which one uses a type of a package whose version its path leaves out.
const USED: &str = "package a:b;
interface user {
    f: func(h: hue) -> bright;
    use c:d/colors.{hue, shade as bright};
}
package c:d@1.2.0 {
    interface colors {
        type shade = list<hue>;
        enum hue { red, green }
        @unstable(feature = more)
        more: func();
    }
}
";

const USED_AGAIN: &str = "interface user {
  use c:d/colors@1.2.0.{hue, shade as bright};
  f: func(h: hue) -> bright;
}
interface colors {
  enum hue {
    red,
    green,
  }
  type shade = list<hue>;
}
";

#[test]
fn interfaces_are_written_again(rt: HostRuntime) -> Result<(), Fail> {
    let found = written(rt.alloc(), USED)?;
    assert!(&rt; found.as_str() == USED_AGAIN, "{found}");
    Ok(())
}

// A name that leads nowhere, and one of several versions that a path leaves out.
const REFUSED: &str = "package a:b;
interface user {
    f: func(h: strnig);
    use c:d/colors.{hue};
}
package c:d@1.2.0 { interface colors { enum hue { red } } }
package c:d@2.0.0 { interface colors { enum hue { red } } }
";

const REPORTS: &str = "a.wit:3:16: there is no type `strnig` here; did you mean `string`?
  |
3 |     f: func(h: strnig);
  |                ^^^^^^
a.wit:4:9: there is no package `c:d`; there is `c:d@1.2.0`; there is `c:d@2.0.0`
  |
4 |     use c:d/colors.{hue};
  |         ^^^
";

#[test]
fn names_that_lead_nowhere_are_refused_at_their_places(rt: HostRuntime) -> Result<(), Fail> {
    let found = written(rt.alloc(), REFUSED)?;
    assert!(&rt; found.as_str() == REPORTS, "{found}");
    Ok(())
}
