// What the system said of a call that failed.
use crate::names::{name_of, path_of};
use std::io;

/// Tells a failed call on standard error, in one line: `member-03-0.img: write: No space left on device`. Where that fails,
/// nothing is told.
pub fn report(rt: HostRuntime, object: &str, call: &str, error: &io::Error) {
    if let Ok(text) = error.to_string(rt.alloc()) {
        let _ = eprintln!(rt; "{object}: {call}: {}", words(&text));
    }
}

/// Tells a failed call on a member's image.
pub fn report_member(rt: HostRuntime, member: u8, call: &str, error: &io::Error) {
    if let Ok(name) = path_of(&name_of(member)) {
        report(rt, name, call, error);
    }
}

/// The words of an error without its number, which std puts behind them.
fn words(text: &str) -> &str {
    match text.split_once(" (os error ") {
        Some((words, _)) => words,
        None => text,
    }
}
