// An image of no bytes, and members without bytes: runs between objects in memory, of which neither the source nor the sink fails.
ghost use Rattle.std.specs.Prelude.{◌≡◌, ◌⊎◌, ◌++◌, ◌∷◌, [], IfOk, List, ℕ, OnOk, Some, codes, map, string_bytes};
ghost use Rattle.dg_io.specs.Racks.{counts_in};
ghost use Rattle.dg_io.specs.Sinks.{sure_taken};
ghost use Rattle.dg_words.specs.Commands.{IsCommand};
ghost use Rattle.dg_words.specs.declared.commands.Command.{Command};
ghost use Rattle.dg_words.specs.declared.commands.Order.{Order};

use dg_io::{MemRack, NoMemory, SureSink, SureSource};
use dg_run::{Status, run};
use std::alloc::Global;

// Bytes of a member of the array 1024 64 4 32 2, and of all that is printed.
pub const LENGTH: u64 = 35_817;

pub const OUTPUT: usize = 256;

/// A run that came to its end: how, and what its objects hold then.
#[derive(Drop)]
pub struct Answer {
    pub status: Status,
    pub sink: SureSink,
    pub rack: MemRack,
}

// One word more.
fn push_word(alloc: Global, words: &mut Vec<String>, text: &str) -> Result<(), NoMemory>
    ensures { OnOk result (map string_bytes words.new.items ≡ map string_bytes words.old.items ++ text.now ∷ []) }
{
    let Ok(word) = String::from_str(alloc, text) else {
        return Err(NoMemory);
    };
    match words.push(word) {
        Ok(()) => Ok(()),
        Err(_) => Err(NoMemory),
    }
}

// The words `trace up 4 64 2`.
fn trace_words(alloc: Global) -> Result<Vec<String>, NoMemory>
    ensures { IfOk result (λ words. IsCommand (map string_bytes words.items) (Command.Trace Order.Up 4 64 2)) }
{
    let mut words = Vec::new(alloc);
    push_word(alloc, &mut words, "trace")?;
    push_word(alloc, &mut words, "up")?;
    push_word(alloc, &mut words, "4")?;
    push_word(alloc, &mut words, "64")?;
    push_word(alloc, &mut words, "2")?;
    Ok(words)
}

// The word `status`.
pub fn status_words(alloc: Global) -> Result<Vec<String>, NoMemory>
    ensures { IfOk result (λ words. IsCommand (map string_bytes words.items) Command.Status) }
{
    let mut words = Vec::new(alloc);
    push_word(alloc, &mut words, "status")?;
    Ok(words)
}

/// An image of no bytes is refused, or memory is wanting; and no call on a member is made.
pub fn refuse_an_empty_image(alloc: Global) -> Result<Answer, NoMemory>
    ensures answer { IfOk result (λ end. (end.status ≡ Status.Refused) ⊎ (end.status ≡ Status.NoMemory)) }
    ensures printed { IfOk result (λ end. end.status ≡ Status.Refused → (text : List ℕ) → sure_taken end.sink ≡ Some text → text ≡ codes "bad length\n") }
    ensures calls { IfOk result (λ end. (counts_in end.rack).calls ≡ 0) }
{
    let words = trace_words(alloc)?;
    let mut source = SureSource::new(Vec::new(alloc));
    let mut sink = SureSink::new(alloc, OUTPUT)?;
    let mut rack = MemRack::new(alloc, 8, LENGTH, Vec::new(alloc))?;
    let status = run(alloc, &words, &mut source, &mut sink, &mut rack);
    Ok(Answer { status, sink, rack })
}

/// There is no array on members that have no bytes, or memory is wanting.
pub fn find_no_array(alloc: Global) -> Result<Answer, NoMemory>
    ensures answer { IfOk result (λ end. (end.status ≡ Status.NoState) ⊎ (end.status ≡ Status.NoMemory)) }
    ensures printed { IfOk result (λ end. end.status ≡ Status.NoState → (text : List ℕ) → sure_taken end.sink ≡ Some text → text ≡ codes "nostate\n") }
{
    let words = status_words(alloc)?;
    let mut source = SureSource::new(Vec::new(alloc));
    let mut sink = SureSink::new(alloc, OUTPUT)?;
    let mut rack = MemRack::new(alloc, 8, LENGTH, Vec::new(alloc))?;
    let status = run(alloc, &words, &mut source, &mut sink, &mut rack);
    Ok(Answer { status, sink, rack })
}
