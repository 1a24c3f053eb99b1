//! Vengine, a chess-variant engine: makes the ports of the machine, and the one call that does what its words ask.
#![tactic(auto)]

ghost use Rattle.std.specs.Prelude.{◌⊎◌};
ghost use Rattle.one_shots.specs.Statuses.{IsCut, IsDone};

use commands::{NO_MEMORY, run};
use foundation::Memory;
use io_ports::{MachineClock, MachineFiles, OpenGate, PatientReader, QueuedInput, StandardOutput};
use std::io::{BufReader, ErrorKind, Read};
use std::process::ExitCode;
use std::rt::{Clock, Env, Files};
use std::sync::Wait;
use std::thread::Threads;
use std::{env, io};

/// The words after the program's name. Words that are not UTF-8 are given as `--`, which is of no command.
fn given_words(rt: &(impl Env + AllocGlobal)) -> Result<Vec<String>, Memory> {
    let alloc = rt.alloc();
    let mut words = Vec::new(alloc);
    match env::args(rt) {
        Ok(args) => {
            for word in args.skip(1) {
                words.push(word)?;
            }
        }
        Err(error) if error.kind() == ErrorKind::OutOfMemory => return Err(Memory),
        Err(_) => words.push(String::from_str(alloc, "--")?)?,
    }
    Ok(words)
}

/// Runs the words of the command line over this input, standard output, the machine's files and its clock. The status
/// is one of the table at `run`: 0, or from 2 to 7.
fn run_words<R, I>(rt: R, input: I) -> u8
where
    R: Env
        + Files
        + Clock
        + Print
        + AllocGlobal
        + Threads
        + Wait
        + Sync
        + Copy
        + Send
        + Drop
        + 'static,
    I: Read + Drop + Send + 'static,
    ensures { IsDone result ⊎ IsCut result }
{
    let alloc = rt.alloc();
    let Ok(words) = given_words(&rt) else {
        return NO_MEMORY;
    };
    let Ok(reader) = BufReader::new(alloc, PatientReader::new(rt, input)) else {
        return NO_MEMORY;
    };
    let Ok(mut source) = QueuedInput::start(rt, alloc, reader) else {
        return NO_MEMORY;
    };
    let mut sink = StandardOutput::new(io::writer(&rt));
    let mut files = MachineFiles::new(rt);
    let mut clock = MachineClock::new(rt);
    run(
        &rt,
        alloc,
        words.as_slice(),
        &mut source,
        &mut sink,
        &mut files,
        &mut clock,
        &OpenGate,
    )
}

// It ends with that status: `main` itself takes no contract.
fn main(rt: HostRuntime) -> ExitCode {
    ExitCode::from(run_words(rt, rt.stdin()))
}
