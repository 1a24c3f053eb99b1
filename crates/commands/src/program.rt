//! The top call.
ghost use Rattle.std.specs.Prelude.{◌≡◌, ◌⊎◌, ◌↔◌, false, IsErr, IsNone, map, string_bytes};
ghost use Rattle.io_ports.specs.Cause.{Rose};
ghost use Rattle.io_ports.specs.Trace.{Moves, Reads};
ghost use Rattle.one_shots.specs.Commands.{IsOneShot, asks_file, asks_input};
ghost use Rattle.one_shots.specs.OutcomeView.{Finishes};
ghost use Rattle.commands.specs.Run.{Completes, CompletesSession, Did, DidPart, FilesFailed, HasFileCause};
ghost use Rattle.one_shots.specs.Statuses.{IsCut, IsDone};
ghost use Rattle.one_shots.specs.Sessions.{to_do};

use crate::sessions::{dialect_of, speak, status_of};
use io_ports::{Clock, Files, Gate, Sink, Source};
use one_shot_checks::{NO_MEMORY, SINK_FAILED, SOURCE_FAILED, Stop};
use one_shots::{Answer, answer_of, answer_to, open};
use std::alloc::Global;
use std::sync::Wait;
use std::thread::Threads;

// Writes the text of an answer, and gives the status.
fn finish<K: Sink>(answer: Result<Answer, Stop>, sink: &mut K) -> u8
    ensures finishes { Finishes answer (K.taken sink.old) (K.taken sink.new) (K.faults sink.old)
        (K.faults sink.new) result }
    ensures unsaid { IsErr answer → sink.new ≡ sink.old }
{
    match answer {
        Ok(answer) => match sink.put(answer.text.items.as_slice()) {
            Ok(()) => answer.status,
            Err(_) => SINK_FAILED,
        },
        Err(Stop::Source) => SOURCE_FAILED,
        Err(Stop::Sink) => SINK_FAILED,
        Err(Stop::Memory) => NO_MEMORY,
    }
}

/// Does what the words of a command line ask, over these ports, and answers the status with which the program ends.
///
/// | status | only where |
/// |---|---|
/// | 0 | the command wrote its whole text, or the session came to `quit` or the end of its lines |
/// | 2 | the words are not of the command set, and the usage line was written |
/// | 3 | an argument, the file of variants or the input has the fault that was written as a line `error FAULT` |
/// | 4 | the source's count of faults rose, after the file of variants was taken; a one-shot command wrote nothing |
/// | 5 | the sink's count of faults rose |
/// | 6 | the file of variants was not read, as the line `error FileFault ..` says that was written |
/// | 7 | there was no memory |
///
/// A file is not read where it is missing or has more than 1,048,576 bytes, or where the files' count of faults rose.
/// Then nothing of the source is taken.
pub fn run<R, S, K, F, C, G>(
    rt: &R,
    alloc: Global,
    words: &[String],
    source: &mut S,
    sink: &mut K,
    files: &mut F,
    clock: &mut C,
    gate: &G,
) -> u8
where
    R: Threads + Wait + Sync,
    S: Source + Send,
    K: Sink + Send,
    F: Files,
    C: Clock + Send,
    G: Gate + Sync,
    ensures statuses { IsDone result ⊎ IsCut result }

    // The sink took exactly a text that the words, the reads of files and the input have for an answer.
    ensures done { IsDone result → Did (S.owed source.old)
        (Moves S.left K.taken C.given C.count C.last source.old source.new sink.old sink.new clock.old clock.new)
        (Reads F.contents F.faults files.old files.new) (F.contents files.old) (S.left source.old)
        (map string_bytes words.now) result }
    // A front part of it.
    ensures cut { IsCut result → DidPart
        (Moves S.left K.taken C.given C.count C.last source.old source.new sink.old sink.new clock.old clock.new)
        (Reads F.contents F.faults files.old files.new) (F.contents files.old) (S.left source.old)
        (map string_bytes words.now) result }
    ensures usage { IsCut result ⊎ ((result ≡ 2) ↔ IsNone (to_do (map string_bytes words.now))) }
    ensures source_failed { result ≡ 4 → Rose (S.faults source.old) (S.faults source.new) }
    ensures silent { IsOneShot (to_do (map string_bytes words.now)) → result ≡ 4 → sink.new ≡ sink.old }
    ensures sink_failed { result ≡ 5 → Rose (K.faults sink.old) (K.faults sink.new) }
    ensures file_unread { result ≡ 6
        → HasFileCause (F.contents files.old) (F.faults files.old) (F.faults files.new) (map string_bytes words.now) }

    // Then the source is as it was.
    ensures unreached { result ≡ 6 → source.new ≡ source.old }
    ensures complete { Completes (F.contents files.old) (S.left source.old) (map string_bytes words.now)
        (FilesFailed (F.faults files.old) (F.faults files.new)) result }
    ensures session_complete { CompletesSession (F.contents files.old) (map string_bytes words.now)
        (FilesFailed (F.faults files.old) (F.faults files.new)) result }

    // A command that takes no input leaves it untouched.
    ensures unread { asks_input (to_do (map string_bytes words.now)) ≡ false → source.new ≡ source.old }

    // A one-shot command reads no file but the one that its words name, as `Shot` says of its reads, and none is
    // touched where they name none.
    ensures unnamed { IsOneShot (to_do (map string_bytes words.now))
        → asks_file (to_do (map string_bytes words.now)) ≡ false → files.new ≡ files.old }
{
    match open(alloc, words, files) {
        Ok(opened) => match dialect_of(&opened.asked.command) {
            None => finish(answer_to(rt, alloc, &opened, source, gate), sink),
            Some(dialect) => {
                let threads = opened.asked.threads as u32;
                let ended = speak(
                    rt,
                    alloc,
                    dialect,
                    opened.sections,
                    threads,
                    source,
                    sink,
                    files,
                    clock,
                    gate,
                );
                status_of(ended)
            }
        },
        Err(no_answer) => finish(answer_of(alloc, Err(no_answer)), sink),
    }
}
