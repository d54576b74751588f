// The words that each command is written by.
ghost use Rattle.std.specs.Prelude.{◌≡◌, ◌∷◌, [], ℕ, List, length, map, codes, string_bytes, Ok, Err, Some, IfOk, IfSome, false};
ghost use Rattle.dg_words.specs.Commands.{ArePathsUnique, Gives, IsCommand, IsNameOfPath, IsPathWord, TakesMemory, order_word};
ghost use Rattle.dg_words.specs.Values.{any_has_hyphen, has_hyphen};
ghost use Rattle.dg_words.specs.declared.commands.Command.{Command};
ghost use Rattle.dg_words.specs.declared.commands.Order.{Order};
ghost use Rattle.dg_words.specs.declared.commands.WordsRefused.{WordsRefused};

use crate::commands::{Command, Order, WordsRefused};
use crate::numbers::{long_number, number};
use crate::values::{TraceWords, drill_words, path_value, trace_words};
use dg_model::Bytes;
use dg_text::{line_is_unique, read_path};
use std::alloc::Global;

/// The most files of a drill.
const MOST_FILES: u32 = 2000;

/// The command that the words are.
pub fn command(alloc: Global, words: &Vec<String>) -> Result<Command, WordsRefused>
    ensures ok { IfOk result (IsCommand (map string_bytes words.now.items)) }
    ensures exact { (c : Command) → IsCommand (map string_bytes words.now.items) c → Gives result c }
    ensures memory { result ≡ Err WordsRefused.NoMemory → TakesMemory (map string_bytes words.now.items) }
{
    let Some((name, values)) = words.split_first() else {
        return Err(WordsRefused::Usage);
    };
    if any_has_hyphen(values) {
        return Err(WordsRefused::Usage);
    }
    match values.len() {
        0 => bare_command(name.as_str()),
        1 => path_command(alloc, name.as_str(), values),
        2 => drill_command(alloc, name.as_str(), values),
        4 => trace_command(alloc, name.as_str(), values),
        _ => Err(WordsRefused::Usage),
    }
}

/// Words are one command at most.
pub fn words_are_one_command()
    ensures { (words : List (List ℕ)) (c d : Command) → IsCommand words c → IsCommand words d → c ≡ d }
{
    paths_are_unique();
}

/// A word is the word of one path at most.
fn paths_are_unique()
    ensures { ArePathsUnique }
{
    line_is_unique();
}

/// Whether one of the words begins with `-`.
fn any_has_hyphen(words: &[String]) -> bool
    ensures { result ≡ any_has_hyphen (map string_bytes words.now) }
{
    words.iter().any(|word| has_hyphen(word.as_str()))
}

/// Whether a word begins with `-`.
fn has_hyphen(word: &str) -> bool
    ensures { result ≡ has_hyphen word.now }
{
    match word.as_bytes() {
        [] => false,
        [first, ..] => *first == b'-',
    }
}

/// The command of this name that takes no value.
fn bare_command(name: &str) -> Result<Command, WordsRefused>
    ensures ok { IfOk result (IsCommand (name.now ∷ [])) }
    ensures exact { (c : Command) → IsCommand (name.now ∷ []) c → result ≡ Ok c }
    ensures memory { result ≡ Err WordsRefused.NoMemory → ⊥ }
{
    if name == "replay" {
        return Ok(Command::Replay);
    }
    if name == "resume" {
        return Ok(Command::Resume);
    }
    if name == "status" {
        return Ok(Command::Status);
    }
    if name == "audit" {
        return Ok(Command::Audit);
    }
    Err(WordsRefused::Usage)
}

/// The path that the words are.
fn path_of(alloc: Global, words: &[String]) -> Result<Bytes, WordsRefused>
    requires count { length words.now ≡ 1 }
    requires plain { any_has_hyphen (map string_bytes words.now) ≡ false }
    ensures ok { IfOk result (IsPathWord (map string_bytes words.now)) }
    ensures exact { (path : List ℕ) → IsPathWord (map string_bytes words.now) path → Gives result path }
{
    paths_are_unique();
    let Ok(word) = path_value(alloc, words) else {
        return Err(WordsRefused::NoMemory);
    };
    match read_path(alloc, word.as_bytes()) {
        Ok(Some(path)) => Ok(path),
        Ok(None) => Err(WordsRefused::Usage),
        Err(_) => Err(WordsRefused::NoMemory),
    }
}

/// The command of this name that takes a path.
fn path_command(alloc: Global, name: &str, values: &[String]) -> Result<Command, WordsRefused>
    requires count { length values.now ≡ 1 }
    requires plain { any_has_hyphen (map string_bytes values.now) ≡ false }
    ensures ok { IfOk result (IsCommand (name.now ∷ map string_bytes values.now)) }
    ensures exact { (c : Command) → IsCommand (name.now ∷ map string_bytes values.now) c → Gives result c }
    ensures memory { result ≡ Err WordsRefused.NoMemory → IsNameOfPath name.now }
{
    if name == "cat" {
        return Ok(Command::Cat(path_of(alloc, values)?));
    }
    if name == "ls" {
        return Ok(Command::Ls(path_of(alloc, values)?));
    }
    Err(WordsRefused::Usage)
}

/// The command of this name that takes two values.
fn drill_command(alloc: Global, name: &str, values: &[String]) -> Result<Command, WordsRefused>
    requires count { length values.now ≡ 2 }
    requires plain { any_has_hyphen (map string_bytes values.now) ≡ false }
    ensures ok { IfOk result (IsCommand (name.now ∷ map string_bytes values.now)) }
    ensures exact { (c : Command) → IsCommand (name.now ∷ map string_bytes values.now) c → Gives result c }
    ensures memory { result ≡ Err WordsRefused.NoMemory → name.now ≡ codes "drill" }
{
    if name != "drill" {
        return Err(WordsRefused::Usage);
    }
    let Ok(words) = drill_words(alloc, values) else {
        return Err(WordsRefused::NoMemory);
    };
    match drill_of(words.seed, words.files) {
        Some(command) => Ok(command),
        None => Err(WordsRefused::Usage),
    }
}

/// The drill of this seed, with so many files.
fn drill_of(seed: &str, files: &str) -> Option<Command>
    ensures some { IfSome result (IsCommand (codes "drill" ∷ seed.now ∷ files.now ∷ [])) }
    ensures exact { (c : Command) → IsCommand (codes "drill" ∷ seed.now ∷ files.now ∷ []) c → result ≡ Some c }
{
    let seed = long_number(seed)?;
    let files = number(files)?;
    if files == 0 || files > MOST_FILES {
        return None;
    }
    Some(Command::Drill { seed, files })
}

/// The order that a word names.
fn order_of(word: &str) -> Option<Order>
    ensures some { IfSome result (λ order. word.now ≡ order_word order) }
    ensures exact { (order : Order) → word.now ≡ order_word order → result ≡ Some order }
{
    if word == "up" {
        return Some(Order::Up);
    }
    if word == "down" {
        return Some(Order::Down);
    }
    if word == "late" {
        return Some(Order::Late);
    }
    None
}

/// The command of this name that takes four values.
fn trace_command(alloc: Global, name: &str, values: &[String]) -> Result<Command, WordsRefused>
    requires count { length values.now ≡ 4 }
    requires plain { any_has_hyphen (map string_bytes values.now) ≡ false }
    ensures ok { IfOk result (IsCommand (name.now ∷ map string_bytes values.now)) }
    ensures exact { (c : Command) → IsCommand (name.now ∷ map string_bytes values.now) c → Gives result c }
    ensures memory { result ≡ Err WordsRefused.NoMemory → name.now ≡ codes "trace" }
{
    if name != "trace" {
        return Err(WordsRefused::Usage);
    }
    let Ok(words) = trace_words(alloc, values) else {
        return Err(WordsRefused::NoMemory);
    };
    match trace_of(&words) {
        Some(command) => Ok(command),
        None => Err(WordsRefused::Usage),
    }
}

/// The trace that these words ask for.
fn trace_of(words: &TraceWords<'_>) -> Option<Command>
    ensures some { IfSome result (IsCommand (codes "trace" ∷ words.now.order.now ∷ words.now.b.now ∷ words.now.k.now ∷ words.now.m.now ∷ [])) }
    ensures exact { (c : Command) → IsCommand (codes "trace" ∷ words.now.order.now ∷ words.now.b.now ∷ words.now.k.now ∷ words.now.m.now ∷ []) c
        → result ≡ Some c }
{
    let order = order_of(words.order)?;
    let b = number(words.b)?;
    let k = number(words.k)?;
    let m = number(words.m)?;
    Some(Command::Trace { order, b, k, m })
}
