// The values behind the name of a command, taken out of the words by `clap`.
ghost use Rattle.std.specs.Prelude.{◌≡◌, ◌∷◌, [], length, map, codes, string_bytes, Some, IsSome, IfOk, IfErr, false};
ghost use Rattle.clap.specs.Words.{app_of, first_value, found_of, kind_of};
ghost use Rattle.dg_words.specs.Values.{AreFound, any_has_hyphen, bare_app, with_value};

use clap::error::ErrorKind;
use clap::{Arg, ArgMatches, Command, Error};
use dg_model::NoMemory;
use std::alloc::{AllocError, Global};

/// A command without values, which is handed the words behind its name.
fn bare<'a>(alloc: Global, name: &'a str) -> Command<'a>
    ensures { app_of result ≡ bare_app name.entry.now }
{
    Command::new(alloc, name).no_binary_name(true)
}

/// Asks for one more value, under this name.
fn ask<'a>(alloc: Global, command: Command<'a>, name: &'a str) -> Result<Command<'a>, AllocError>
    ensures { IfOk result (λ r. app_of r ≡ with_value (app_of command.entry) name.entry.now) }
{
    command.arg(Arg::new(alloc, name).required(true))
}

/// The value of this name, which was found.
fn found<'a>(matches: &ArgMatches<'a>, name: &str) -> &'a str
    requires { IsSome (first_value (found_of matches.now) name.now) }
    ensures { first_value (found_of matches.now) name.now ≡ Some result.now }
{
    match matches.get_str(name) {
        Some(value) => value,
        None => unreachable!(),
    }
}

/// Words that a command takes can't be parsed for want of memory alone.
fn want_of_memory(error: Error) -> NoMemory
    requires { kind_of error ≡ ErrorKind.OutOfMemory }
{
    match error.kind() {
        ErrorKind::OutOfMemory => NoMemory,
        _ => unreachable!(),
    }
}

fn path_matches<'a>(alloc: Global, words: &'a [String]) -> Result<ArgMatches<'a>, Error>
    requires count { length words.now ≡ 1 }
    requires plain { any_has_hyphen (map string_bytes words.now) ≡ false }
    ensures ok { IfOk result (λ m. AreFound (map string_bytes words.entry.now) (first_value (found_of m) (codes "PATH") ∷ [])) }
    ensures err { IfErr result (λ e. kind_of e ≡ ErrorKind.OutOfMemory) }
{
    let command = ask(alloc, bare(alloc, "path"), "PATH")?;
    command.try_get_matches_from(words)
}

/// The path of a command that takes one.
pub fn path_value<'a>(alloc: Global, words: &'a [String]) -> Result<&'a str, NoMemory>
    requires count { length words.now ≡ 1 }
    requires plain { any_has_hyphen (map string_bytes words.now) ≡ false }
    ensures { IfOk result (λ path. map string_bytes words.entry.now ≡ path.now ∷ []) }
{
    match path_matches(alloc, words) {
        Ok(matches) => Ok(found(&matches, "PATH")),
        Err(error) => Err(want_of_memory(error)),
    }
}

fn drill_matches<'a>(alloc: Global, words: &'a [String]) -> Result<ArgMatches<'a>, Error>
    requires count { length words.now ≡ 2 }
    requires plain { any_has_hyphen (map string_bytes words.now) ≡ false }
    ensures ok { IfOk result (λ m. AreFound (map string_bytes words.entry.now)
        (first_value (found_of m) (codes "SEED") ∷ first_value (found_of m) (codes "FILES") ∷ [])) }
    ensures err { IfErr result (λ e. kind_of e ≡ ErrorKind.OutOfMemory) }
{
    let command = ask(alloc, bare(alloc, "drill"), "SEED")?;
    let command = ask(alloc, command, "FILES")?;
    command.try_get_matches_from(words)
}

/// The words of a drill: its seed, and the number of its files.
#[derive(Clone, Copy, Debug)]
pub struct DrillWords<'a> {
    pub seed: &'a str,
    pub files: &'a str,
}

pub fn drill_words<'a>(alloc: Global, words: &'a [String]) -> Result<DrillWords<'a>, NoMemory>
    requires count { length words.now ≡ 2 }
    requires plain { any_has_hyphen (map string_bytes words.now) ≡ false }
    ensures { IfOk result (λ r. map string_bytes words.entry.now ≡ r.seed.now ∷ r.files.now ∷ []) }
{
    match drill_matches(alloc, words) {
        Ok(matches) => Ok(DrillWords {
            seed: found(&matches, "SEED"),
            files: found(&matches, "FILES"),
        }),
        Err(error) => Err(want_of_memory(error)),
    }
}

fn trace_matches<'a>(alloc: Global, words: &'a [String]) -> Result<ArgMatches<'a>, Error>
    requires count { length words.now ≡ 4 }
    requires plain { any_has_hyphen (map string_bytes words.now) ≡ false }
    ensures ok { IfOk result (λ m. AreFound (map string_bytes words.entry.now) (first_value (found_of m) (codes "ORDER")
        ∷ first_value (found_of m) (codes "B") ∷ first_value (found_of m) (codes "K") ∷ first_value (found_of m) (codes "M") ∷ [])) }
    ensures err { IfErr result (λ e. kind_of e ≡ ErrorKind.OutOfMemory) }
{
    let command = ask(alloc, bare(alloc, "trace"), "ORDER")?;
    let command = ask(alloc, command, "B")?;
    let command = ask(alloc, command, "K")?;
    let command = ask(alloc, command, "M")?;
    command.try_get_matches_from(words)
}

/// The words of a trace that is made: the order of its blocks, and the numbers of its array.
#[derive(Clone, Copy, Debug)]
pub struct TraceWords<'a> {
    pub order: &'a str,
    pub b: &'a str,
    pub k: &'a str,
    pub m: &'a str,
}

pub fn trace_words<'a>(alloc: Global, words: &'a [String]) -> Result<TraceWords<'a>, NoMemory>
    requires count { length words.now ≡ 4 }
    requires plain { any_has_hyphen (map string_bytes words.now) ≡ false }
    ensures { IfOk result (λ r. map string_bytes words.entry.now ≡ r.order.now ∷ r.b.now ∷ r.k.now ∷ r.m.now ∷ []) }
{
    match trace_matches(alloc, words) {
        Ok(matches) => Ok(TraceWords {
            order: found(&matches, "ORDER"),
            b: found(&matches, "B"),
            k: found(&matches, "K"),
            m: found(&matches, "M"),
        }),
        Err(error) => Err(want_of_memory(error)),
    }
}
