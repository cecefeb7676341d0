//! The program `wac-wit`: reads WIT packages, shows them, and asks which fits where another is
//! asked for.
#![tactic(auto)]

use std::io::Write;
use std::process::ExitCode;
use std::rt::Files;
use std::{env, io};
use wac_wit_program::{NO, REFUSED, run};

fn main(rt: HostRuntime) -> ExitCode {
    let out = rt.stdout();
    let err = rt.stderr();
    let mut out = io::writer(&out);
    let mut err = io::writer(&err);
    let status = match env::args(&rt) {
        Ok(args) => run_args(&rt, args, &mut out, &mut err),
        // an argument that is no text is no command
        Err(e) if e.kind() == io::ErrorKind::InvalidData => REFUSED,
        Err(_) => NO,
    };
    ExitCode::from(status)
}

fn run_args<H: Files + AllocGlobal + Clone + Drop, W: Write, E: Write>(
    rt: &H,
    args: env::Args,
    out: &mut W,
    err: &mut E,
) -> u8 {
    let Ok(args) = args.collect::<Vec<String>>(rt.alloc()) else {
        return NO;
    };
    let words = args.iter().map(|arg| arg.as_str());
    match words.collect::<Vec<&str>>(rt.alloc()) {
        Ok(words) => run(rt, &words, out, err),
        Err(_) => NO,
    }
}
