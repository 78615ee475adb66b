//! The program `canon_replay`: its word says whether the script on its standard input is recorded, or a recording made again, and its status
//! says how it ended.
#![tactic(auto)]

use canon_cli::{Status, StdSink, StdSource};
use canon_replay_cli::replay_run;
use std::alloc::Global;
use std::io::ErrorKind;
use std::process::ExitCode;
use std::{env, io};

fn main(rt: HostRuntime) -> ExitCode {
    let alloc = rt.alloc();
    let words = match env::args(&rt) {
        Ok(args) => words_of(alloc, args),
        Err(error) => Err(refusal(&error)),
    };
    let status = match words {
        Ok(words) => {
            let mut source = StdSource::new(rt.reader());
            let mut sink = StdSink::new(io::writer(&rt));
            replay_run(alloc, &words, &mut source, &mut sink)
        }
        Err(status) => status,
    };
    ExitCode::from(status.0)
}

/// The words after the program's name.
fn words_of(alloc: Global, args: env::Args) -> Result<Vec<String>, Status> {
    let mut words = Vec::new(alloc);
    for word in args.skip(1) {
        if words.push(word).is_err() {
            return Err(Status::MEMORY);
        }
    }
    Ok(words)
}

/// A word that isn't UTF-8 is a faulty command line.
fn refusal(error: &io::Error) -> Status {
    match error.kind() {
        ErrorKind::OutOfMemory => Status::MEMORY,
        _ => Status::USAGE,
    }
}
