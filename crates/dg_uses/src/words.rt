// Words that are no command, and a command that reads no input.
ghost use Rattle.std.specs.Prelude.{◌≡◌, ◌≤◌, IfOk, List, ℕ, Some};
ghost use Rattle.dg_io.specs.Racks.{counts_in};
ghost use Rattle.dg_io.specs.Sinks.{sure_calls as calls_of_sink, sure_taken};
ghost use Rattle.dg_io.specs.Sources.{sure_calls};
ghost use Rattle.dg_text.specs.Replies.{usage};

use crate::blanks::{Answer, LENGTH, OUTPUT, status_words};
use dg_io::{MemRack, NoMemory, SureSink, SureSource};
use dg_run::{Status, run};
use std::alloc::Global;

/// No words are no command: the usage line is printed, by one call of the sink at most, and no call on a member is made. No memory is wanting for it.
pub fn refuse_no_words(alloc: Global) -> Result<Answer, NoMemory>
    ensures answer { IfOk result (λ end. end.status ≡ Status.Usage) }
    ensures printed { IfOk result (λ end. (text : List ℕ) → sure_taken end.sink ≡ Some text → text ≡ usage) }
    ensures once { IfOk result (λ end. (text : List ℕ) → sure_taken end.sink ≡ Some text → calls_of_sink end.sink ≤ 1) }
    ensures calls { IfOk result (λ end. (counts_in end.rack).calls ≡ 0) }
{
    let words = Vec::new(alloc);
    let mut source = SureSource::new(Vec::new(alloc));
    let mut sink = SureSink::new(alloc, OUTPUT)?;
    let mut rack = MemRack::new(alloc, 8, LENGTH, Vec::new(alloc))?;
    let status = run(alloc, &words, &mut source, &mut sink, &mut rack);
    Ok(Answer { status, sink, rack })
}

/// A status asks nothing of the source, and neither a source nor a sink that never fails is said to have failed. Nor are its words said to be no
/// command.
pub fn ask_for_a_status(alloc: Global, rack: &mut MemRack) -> Result<(Status, SureSource), NoMemory>
    ensures calls { IfOk result (λ end. sure_calls end.1 ≡ 0) }
    ensures read { IfOk result (λ end. end.0 ≡ Status.ReadFault → ⊥) }
    ensures write { IfOk result (λ end. end.0 ≡ Status.WriteFault → ⊥) }
    ensures usage { IfOk result (λ end. end.0 ≡ Status.Usage → ⊥) }
{
    let words = status_words(alloc)?;
    let mut source = SureSource::new(Vec::new(alloc));
    let mut sink = SureSink::new(alloc, OUTPUT)?;
    let status = run(alloc, &words, &mut source, &mut sink, rack);
    Ok((status, source))
}
