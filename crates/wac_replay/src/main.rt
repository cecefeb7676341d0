//! The program `wac-replay`: reads a script that builds collections of types and asks questions,
//! and prints the answers. With the words `check FILE..` it checks scripts whose questions have
//! their answers beside them, and with `bench NAME N` it measures how long some work takes.
#![tactic(auto)]

use std::io::{BufRead, Write};
use std::process::ExitCode;
use std::rt::Files;
use std::time::Clock;
use std::{env, io};
use wac_script_program::{FAILED, run, usage};

fn main(rt: HostRuntime) -> ExitCode {
    let out = rt.stdout();
    let err = rt.stderr();
    let mut out = io::writer(&out);
    let mut err = io::writer(&err);
    let status = match env::args(&rt) {
        Ok(args) => run_args(&rt, args, rt.reader(), &mut out, &mut err),
        // an argument that is no text is no command
        Err(e) if e.kind() == io::ErrorKind::InvalidData => usage(&mut err),
        Err(_) => FAILED,
    };
    ExitCode::from(status)
}

fn run_args<H: Clock + Files + AllocGlobal, R: BufRead + Drop, W: Write, E: Write>(
    rt: &H,
    args: env::Args,
    reader: R,
    out: &mut W,
    err: &mut E,
) -> u8 {
    let Ok(args) = args.skip(1).collect::<Vec<String>>(rt.alloc()) else {
        return FAILED;
    };
    let words = args.iter().map(|arg| arg.as_str());
    match words.collect::<Vec<&str>>(rt.alloc()) {
        Ok(words) => run(rt, &words, reader, out, err),
        Err(_) => FAILED,
    }
}
