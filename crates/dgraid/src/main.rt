//! The program `dgraid`: the trace comes from standard input, the replies go to standard output, and the members are
//! image files in the current folder. It ends with the status of the run. Where a call on one of these fails, the adapter tells on
//! standard error what the system said.
#![tactic(auto)]

mod aside;
mod files;
mod images;
mod inputs;
mod members;
mod names;
mod outputs;
mod reports;
mod searches;
mod system;
#[cfg(test)]
mod tests;

use dg_run::{Status, run};
use files::Purpose;
use images::ImageRack;
use inputs::StandardInput;
use outputs::StandardOutput;
use searches::Search;
use std::env;
use std::fs::File;
use std::io::{self, ErrorKind};
use std::process::ExitCode;

/// The words after the program's name.
fn words(rt: HostRuntime) -> io::Result<Vec<String>> {
    let mut words = Vec::new(rt.alloc());
    for word in env::args(&rt)?.skip(1) {
        words.push(word)?;
    }
    Ok(words)
}

/// The words, or none where one of them isn't UTF-8: no words are no command.
fn words_or_none(rt: HostRuntime) -> io::Result<Vec<String>> {
    match words(rt) {
        Err(error) if error.kind() == ErrorKind::InvalidData => Ok(Vec::new(rt.alloc())),
        answer => answer,
    }
}

/// What a command does with the images.
fn purpose_of(words: &[String]) -> Purpose {
    match words.first().map(|word| word.as_str()) {
        Some("cat" | "ls" | "status") => Purpose::Read,
        _ => Purpose::Write,
    }
}

/// Opens a folder three times. A standard stream that is closed has one of these numbers then, and fails where it is used; else an image
/// file would get the number, and the stream's bytes.
fn hold_streams(rt: HostRuntime) -> [Option<File>; 3] {
    [
        File::open(&rt, "/").ok(),
        File::open(&rt, "/").ok(),
        File::open(&rt, "/").ok(),
    ]
}

/// Does what the words say.
fn serve(rt: HostRuntime) -> Status {
    let _held = hold_streams(rt);
    let Ok(words) = words_or_none(rt) else {
        return Status::NoMemory;
    };
    let search = Search::new();
    let Ok(mut rack) = ImageRack::new(rt, purpose_of(&words), &search) else {
        return Status::NoMemory;
    };
    let mut source = StandardInput::new(rt);
    let mut sink = StandardOutput::new(rt, &search);
    let status = run(rt.alloc(), &words, &mut source, &mut sink, &mut rack);
    rack.close();
    status
}

fn main(rt: HostRuntime) -> ExitCode {
    ExitCode::from(serve(rt).code())
}
