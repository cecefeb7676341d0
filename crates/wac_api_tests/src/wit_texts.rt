//! WIT texts: one that is read, and what is said of those that aren't WIT.

use std::alloc::{AllocError, Global};
use std::test::Fail;
use wac_wit_syntax::{MAX_DEPTH, SyntaxError, parse, push_report};

// What is read of a text: how many items and packages it has, or the reports of its refusals.
fn read(alloc: Global, text: &str) -> Result<String, AllocError> {
    let mut out = String::new(alloc);
    match parse(alloc, text) {
        Ok(document) => {
            let (items, packages) = (document.items.len(), document.packages.len());
            write!(out, "{items} items, {packages} packages")?;
        }
        Err(SyntaxError::Refused(refusals)) => {
            for refusal in refusals.iter() {
                push_report(&mut out, "a.wit", text, refusal)?;
            }
        }
        Err(SyntaxError::Memory) => return Err(AllocError),
    }
    Ok(out)
}

// Each construct of the grammar.
const WHOLE: &str = "package acme:lamp@1.2.0;

use acme:base/colors@1.0.0-rc.1 as palette;

/// what is switched
interface light {
    use palette.{color, shade as tint};
    @since(version = 1.1.0)
    @deprecated(version = 1.2.0)
    record setting { level: u8, hue: color }
    variant state { off, on(setting), fading(tuple<setting, u32>), }
    enum mode { day, night }
    flags rights { read, write }
    type levels = list<u8>;
    type pair = list<u8, 2>;
    type names = map<string, option<levels>>;
    resource lamp {
        constructor(at: string);
        level: func() -> result<u8, string>;
        all: static func() -> list<own<lamp>>;
    }
    /* a comment /* in a comment */ */
    watch: async func(of: borrow<lamp>, %use: mode) -> stream<state>;
    later: func() -> future;
    soon: func() -> future<lamp>;
    bare: func() -> result;
    half: func() -> result<tint>;
    other: func(of: rights) -> result<_, string>;
}

world home {
    use light.{lamp};
    type lamps = list<lamp>;
    import light;
    import wasi:clocks/wall-clock@0.2.0;
    import log: func(line: string);
    import inner: interface {
        f: func(x: pair);
    }
    include acme:base/all@1.0.0 with { f as g }
    @unstable(feature = extra)
    export run: func(of: lamps);
    export light;
}

package acme:other@0.1.0 {
    interface empty {}
}
";

#[test]
fn a_text_with_each_construct_is_read(rt: HostRuntime) -> Result<(), Fail> {
    let said = read(rt.alloc(), WHOLE)?;
    assert!(&rt; said.as_str() == "3 items, 1 packages", "{said}");
    Ok(())
}

const TWICE_WRONG: &str = "interface i {
  record r { a: u8; b: u8 }
  f: func() -> lst<u8>;
}
";

const REPORTS: &str = "a.wit:2:19: expected `,` or `}`, found `;`
  |
2 |   record r { a: u8; b: u8 }
  |                   ^
a.wit:3:19: expected `;`, found `<`
  |
3 |   f: func() -> lst<u8>;
  |                   ^
";

#[test]
fn a_refusal_is_shown_at_its_place(rt: HostRuntime) -> Result<(), Fail> {
    let said = read(rt.alloc(), TWICE_WRONG)?;
    assert!(&rt; said.as_str() == REPORTS, "{said}");
    Ok(())
}

// A type alias of so many lists, each of the next, on one line.
fn nested(alloc: Global, lists: usize) -> Result<String, AllocError> {
    let mut text = String::from_str(alloc, "interface i { type t = ")?;
    for _list in 0..lists {
        text.push_str("list<")?;
    }
    text.push_str("u8")?;
    for _list in 0..lists {
        text.push_str(">")?;
    }
    text.push_str("; }")?;
    Ok(text)
}

#[test]
fn types_nest_up_to_a_depth(rt: HostRuntime) -> Result<(), Fail> {
    let text = nested(rt.alloc(), MAX_DEPTH)?;
    let said = read(rt.alloc(), &text)?;
    assert!(&rt; said.as_str() == "1 items, 0 packages", "{said}");
    let text = nested(rt.alloc(), MAX_DEPTH + 1)?;
    let said = read(rt.alloc(), &text)?;
    // the place is that of the last list, behind 23 bytes and five for each list before it
    let report = said.lines().next().unwrap_or("");
    assert!(&rt;
        report == "a.wit:1:5024: types nest at most 1000 deep",
        "{report}"
    );
    Ok(())
}
