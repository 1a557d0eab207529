// The top call.
ghost use Rattle.std.specs.Prelude.{◌≡◌, ◌≢◌, ◌⊎◌, ◌+◌, ◌≤◌, Some};
ghost use Rattle.mwt_base.specs.Causes.{Rose};
ghost use Rattle.mwt_base.specs.Limits.{most_bytes};
ghost use Rattle.mwt_base.specs.Sure.{collected_bytes};
ghost use Rattle.mwt_tool.specs.Said.{IsAcceptedInput, IsAnswer, ReadsUpTo, Says, SaysPrefix};
ghost use Rattle.mwt_tool.specs.Words.{texts};
ghost use Rattle.mwt_tool.specs.Intends.{ReadsInput};

use crate::answer::{Stop, decide};
use mwt_base::{Gate, Sink, Source, Status, SureSink, SureSource, write_whole};
use std::alloc::Global;
use std::thread::Threads;

/// Does all that the program does. `words` are those after the program's name.
///
/// What it means to write for its words and its input is stated in `specs/Intends.antt`, over the
/// table of modes in `specs/Modes.antt`. All memory is taken before the first write.
pub fn run<S: Source, K: Sink, G: Gate, R: Threads + Sync>(
    rt: &R,
    alloc: Global,
    words: &[String],
    source: &mut S,
    sink: &mut K,
    gate: &G,
) -> Status
    // With an answer: what the program means to write for these words and this input was written.
    ensures said { IsAnswer result →
        Says (texts words.now) (S.left source.old) result (K.written sink.old) (K.written sink.new) }

    // A fault comes from outside, and nothing else was written.
    ensures write_fault { result ≡ Status.WriteFault → Rose (K.faults sink.old) (K.faults sink.new) }
    ensures write_fault_prefix { result ≡ Status.WriteFault →
        SaysPrefix (texts words.now) (S.left source.old) (K.written sink.old) (K.written sink.new) }
    ensures read_fault { result ≡ Status.ReadFault → Rose (S.faults source.old) (S.faults source.new) }
    ensures read_fault_reads { result ≡ Status.ReadFault → ReadsInput (texts words.now) }
    ensures read_fault_silent { result ≡ Status.ReadFault → sink.new ≡ sink.old }
    ensures no_memory { result ≡ Status.NoMemory → sink.new ≡ sink.old }

    // What was read.
    ensures read_to_the_end { ReadsInput (texts words.now) → IsAnswer result ⊎ (result ≡ Status.WriteFault) →
        ReadsUpTo most_bytes (S.left source.old) (S.left source.new) }
    ensures read_nothing { ¬ ReadsInput (texts words.now) → source.new ≡ source.old }
    ensures reads { S.reads source.new ≤ S.reads source.old + (most_bytes + 2) }

    // Where no fault was counted there is an answer, or the program is out of memory.
    ensures no_other { ¬ Rose (S.faults source.old) (S.faults source.new) →
        ¬ Rose (K.faults sink.old) (K.faults sink.new) →
        IsAnswer result ⊎ (result ≡ Status.NoMemory) }

    // An input that the mode accepts is answered with Done: with `solve`, an accepted file with its report, and
    // with `explain` with its killed edges; with `check`, the text of a good report with `valid`; with `make`, any,
    // and with `trial`, any where the made file is one that `solve` accepts, for these two read nothing.
    ensures complete { IsAcceptedInput (texts words.now) (S.left source.old) →
        ¬ Rose (S.faults source.old) (S.faults source.new) → ¬ Rose (K.faults sink.old) (K.faults sink.new) →
        (result ≡ Status.Done) ⊎ (result ≡ Status.NoMemory) }
{
    match decide(rt, alloc, words, source, gate) {
        Ok(answer) => match write_whole(sink, answer.text.bytes()) {
            Ok(()) => answer.status,
            Err(_) => Status::WriteFault,
        },
        Err(Stop::ReadFault) => Status::ReadFault,
        Err(Stop::NoMemory) => Status::NoMemory,
    }
}

/// The top call over a source and a sink in memory, where no fault is ever answered: the program as a
/// function from words and bytes to a status and a text.
pub fn run_in_memory<G: Gate, R: Threads + Sync>(
    rt: &R,
    alloc: Global,
    words: &[String],
    source: &mut SureSource,
    sink: &mut SureSink,
    gate: &G,
) -> Status
    ensures said { result ≢ Status.NoMemory →
        Says (texts words.now) (Some source.old.left) result (collected_bytes sink.old) (collected_bytes sink.new) }
    ensures no_memory { result ≡ Status.NoMemory → sink.new ≡ sink.old }
    ensures no_fault { IsAnswer result ⊎ (result ≡ Status.NoMemory) }
    ensures read_to_the_end { ReadsInput (texts words.now) → result ≢ Status.NoMemory →
        ReadsUpTo most_bytes (Some source.old.left) (Some source.new.left) }
    ensures read_nothing { ¬ ReadsInput (texts words.now) → source.new ≡ source.old }
    ensures complete { IsAcceptedInput (texts words.now) (Some source.old.left) →
        (result ≡ Status.Done) ⊎ (result ≡ Status.NoMemory) }
{
    run(rt, alloc, words, source, sink, gate)
}
