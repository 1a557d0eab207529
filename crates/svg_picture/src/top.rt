// The top call.
ghost use Rattle.std.specs.Prelude.{◌≡◌, ◌≢◌, ◌⊎◌, ◌+◌, ◌≤◌};
ghost use Rattle.mwt_base.specs.Causes.{Rose};
ghost use Rattle.mwt_base.specs.Limits.{most_bytes};
ghost use Rattle.mwt_tool.specs.Said.{IsAnswer, ReadsUpTo};
ghost use Rattle.svg_picture.specs.Draws.{IsReportText, Says, SaysPrefix};

use crate::answer::{Stop, decide};
use mwt_base::{Sink, Source, Status, write_whole};
use std::alloc::Global;

/// Draws the report that the source holds into the sink. `words` is how many words come after the
/// program's name: none is taken.
///
/// What it means to write is stated in `specs/Draws.antt`. All memory is taken before the first write.
pub fn draw<S: Source, K: Sink>(alloc: Global, words: usize, source: &mut S, sink: &mut K) -> Status
    // With an answer: the picture or the refusal that these words and this input are to have was written.
    ensures said { IsAnswer result →
        Says words (S.left source.old) result (K.written sink.old) (K.written sink.new) }

    // A fault comes from outside, and nothing else was written.
    ensures write_fault { result ≡ Status.WriteFault → Rose (K.faults sink.old) (K.faults sink.new) }
    ensures write_fault_prefix { result ≡ Status.WriteFault →
        SaysPrefix words (S.left source.old) (K.written sink.old) (K.written sink.new) }
    ensures read_fault { result ≡ Status.ReadFault → Rose (S.faults source.old) (S.faults source.new) }
    ensures read_fault_reads { result ≡ Status.ReadFault → words ≡ 0 }
    ensures read_fault_silent { result ≡ Status.ReadFault → sink.new ≡ sink.old }
    ensures no_memory { result ≡ Status.NoMemory → sink.new ≡ sink.old }

    // What was read.
    ensures read_to_the_end { words ≡ 0 → IsAnswer result ⊎ (result ≡ Status.WriteFault) →
        ReadsUpTo most_bytes (S.left source.old) (S.left source.new) }
    ensures read_nothing { words ≢ 0 → source.new ≡ source.old }
    ensures reads { S.reads source.new ≤ S.reads source.old + (most_bytes + 2) }

    // Where no fault was counted there is an answer, or the program is out of memory.
    ensures no_other { ¬ Rose (S.faults source.old) (S.faults source.new) →
        ¬ Rose (K.faults sink.old) (K.faults sink.new) →
        IsAnswer result ⊎ (result ≡ Status.NoMemory) }

    // The text of a report is answered with Done.
    ensures complete { words ≡ 0 → IsReportText (S.left source.old) →
        ¬ Rose (S.faults source.old) (S.faults source.new) → ¬ Rose (K.faults sink.old) (K.faults sink.new) →
        (result ≡ Status.Done) ⊎ (result ≡ Status.NoMemory) }
{
    match decide(alloc, words, source) {
        Ok(answer) => match write_whole(sink, &answer.text) {
            Ok(()) => answer.status,
            Err(_) => Status::WriteFault,
        },
        Err(Stop::ReadFault) => Status::ReadFault,
        Err(Stop::NoMemory) => Status::NoMemory,
    }
}
