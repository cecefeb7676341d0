//! The program `wac-vectors`: asks the library built-in questions and prints its answers.
#![tactic(auto)]

use std::alloc::Global;
use std::io::Write;
use std::process::ExitCode;
use std::{env, io};
use wac_vectors_program::{FAILED, run, usage};

fn main(rt: HostRuntime) -> ExitCode {
    let out = rt.stdout();
    let err = rt.stderr();
    let mut out = io::writer(&out);
    let mut err = io::writer(&err);
    let status = match env::args(&rt) {
        Ok(args) => run_args(rt.alloc(), args, &mut out, &mut err),
        // an argument that is no text is no command
        Err(e) if e.kind() == io::ErrorKind::InvalidData => usage(&mut err),
        Err(_) => FAILED,
    };
    ExitCode::from(status)
}

fn run_args<W: Write, E: Write>(alloc: Global, args: env::Args, out: &mut W, err: &mut E) -> u8 {
    let Ok(args) = args.skip(1).collect::<Vec<String>>(alloc) else {
        return FAILED;
    };
    let words = args.iter().map(|arg| arg.as_str());
    match words.collect::<Vec<&str>>(alloc) {
        Ok(words) => run(alloc, &words, out, err),
        Err(_) => FAILED,
    }
}
