//! Tests of `io_ports`.
mod adapters;
mod memory;

use crate::expect::expect;
use foundation::Memory;
use io_ports::{
    Dialect, Failed, Files, Gate, Given, Got, Heard, HoldingGate, LineBuf, MAX_LINE, Polled, Sink,
    Source, StandardInput, StandardOutput, find_command, hear, too_long_answer,
};
use std::alloc::{AllocError, Global};
use std::io::{self, BufReader, ErrorKind, Read, Write};
use std::thread::join;

// Writes an answer of a source on a line of its own.
fn tell(told: &mut Vec<u8>, answer: Polled, line: &LineBuf) -> Result<(), AllocError> {
    let text = match answer {
        Polled::Line => line.text(),
        Polled::TooLong => b"(long)",
        Polled::End => b"(end)",
        Polled::Failed => b"(fault)",
        Polled::NotYet => b"(wait)",
    };
    told.extend_from_slice(text)?;
    Ok(told.push(b'\n')?)
}

// What a source answers when it is polled this often.
fn polls<S: Source>(alloc: Global, source: &mut S, count: u32) -> Result<Vec<u8>, Memory> {
    let (mut line, mut told) = (LineBuf::new(alloc)?, Vec::new(alloc));
    for _ in 0..count {
        let answer = source.poll_line(&mut line);
        tell(&mut told, answer, &line)?;
    }
    Ok(told)
}

// What a source answers when it is asked this often.
fn lines<S: Source>(alloc: Global, source: &mut S, count: u32) -> Result<Vec<u8>, Memory> {
    let (mut line, mut told) = (LineBuf::new(alloc)?, Vec::new(alloc));
    for _ in 0..count {
        let answer = source.next_line(&mut line);
        tell(&mut told, answer.into(), &line)?;
    }
    Ok(told)
}

// Puts the pieces that bars separate, and tells whether each was taken.
fn puts<K: Sink>(alloc: Global, sink: &mut K, pieces: &[u8]) -> Result<Vec<u8>, AllocError> {
    let mut told = Vec::new(alloc);
    for piece in pieces.split(|byte| *byte == b'|') {
        told.push(if sink.put(piece).is_ok() { b'+' } else { b'-' })?;
    }
    Ok(told)
}

// Reads the files whose names blanks separate, and tells the answers and how many bytes each has.
fn reads<F: Files>(alloc: Global, files: &mut F, names: &[u8]) -> Result<Vec<u8>, io::Error> {
    let (mut out, mut told) = (Vec::new(alloc), Vec::new(alloc));
    for name in names.split(|byte| *byte == b' ') {
        match files.read(name, &mut out) {
            Given::Bytes => write!(told, "{} ", out.len())?,
            Given::Missing => told.extend_from_slice(b"missing ")?,
            Given::TooLarge => told.extend_from_slice(b"large ")?,
            Given::Failed => told.extend_from_slice(b"fault ")?,
            Given::Memory => told.extend_from_slice(b"memory ")?,
        }
    }
    Ok(told)
}

fn pass<G: Gate + Sync>(gate: &G, worker: u32) {
    gate.pass(worker, 0);
}

// Tells what each line does that is heard: `r` is a reply, `i` is ignored and `s` stops.
fn hears(alloc: Global, dialect: Dialect, lines: &[u8]) -> Result<Vec<u8>, AllocError> {
    let mut told = Vec::new(alloc);
    for line in lines.split(|byte| *byte == b'\n') {
        told.push(match hear(dialect, line) {
            Heard::Reply(_) => b'r',
            Heard::Skip => b'i',
            Heard::Stop => b's',
        })?;
    }
    Ok(told)
}

// The text after the first command of a line.
fn after_command(line: &[u8]) -> &[u8] {
    match find_command(line) {
        Some((_, Some(after))) => after,
        Some((_, None)) | None => b"(none)",
    }
}

#[test]
fn a_line_that_is_heard_is_answered_or_skipped_or_stops(rt: HostRuntime) {
    let alloc = rt.alloc();
    let text =
        b"\n \t \ndebug isready\nregister\nISREADY\nxquit\n\tgo isready\nx quit\nstrategy\n\t joho  isready now";
    let uci = hears(alloc, Dialect::Uci, text).expect(&rt, "no fault");
    expect(&rt, uci.as_slice() == b"iiiiiisssr".as_slice());
    let cecp = hears(alloc, Dialect::Cecp, text).expect(&rt, "no fault");
    expect(&rt, cecp.as_slice() == b"isssssssss".as_slice());
}

#[test]
fn a_command_is_found_with_the_text_after_it(rt: HostRuntime) {
    expect(
        &rt,
        after_command(b"a\tgo  go depth") == b" go depth".as_slice(),
    );
    expect(&rt, after_command(b"quit") == b"(none)".as_slice());
    expect(
        &rt,
        too_long_answer(Dialect::Cecp) == b"Error (line too long)\n".as_slice(),
    );
}

#[test]
fn worker_0_is_held_until_worker_1_has_passed(rt: HostRuntime) {
    let gate = HoldingGate::new();
    join(&rt, || pass(&gate, 0), || pass(&gate, 1));
    assert!(rt; !gate.gave_up());
    let alone = HoldingGate::new();
    pass(&alone, 2);
    pass(&alone, 0);
    assert!(rt; alone.gave_up());
}

// N bytes, and then an end of line and another line.
fn long_line(alloc: Global, len: usize, end: &[u8]) -> Result<Vec<u8>, AllocError> {
    let mut text = vec![in alloc; b'a'; len]?;
    text.extend_from_slice(end)?;
    text.extend_from_slice(b"next")?;
    Ok(text)
}

// A writer that takes at most 3 bytes a call, up to its room, and can be flushed `flushes` times.
#[derive(Drop)]
struct Narrow {
    written: Vec<u8>,
    room: usize,
    flushes: u32,
    flushed: usize,
}

impl Write for Narrow {
    fn write(&mut self, buf: &[u8]) -> io::Result<usize> {
        let taken = buf.len().min(self.room).min(3);
        if taken == 0 {
            return Err(io::Error::from(ErrorKind::StorageFull));
        }
        self.written.extend_from_slice(&buf[..taken])?;
        self.room -= taken;
        Ok(taken)
    }

    fn flush(&mut self) -> io::Result<()> {
        if self.flushes == 0 {
            return Err(io::Error::from(ErrorKind::BrokenPipe));
        }
        self.flushes -= 1;
        self.flushed = self.written.len();
        Ok(())
    }
}

// Puts two pieces into a writer of this room, and tells the answers, what was written and how much of it was flushed.
fn narrow_puts(alloc: Global, room: usize, flushes: u32) -> Result<Vec<u8>, io::Error> {
    let mut writer = Narrow {
        written: Vec::new(alloc),
        room,
        flushes,
        flushed: 0,
    };
    let mut output = StandardOutput::new(&mut writer);
    let mut told = puts(alloc, &mut output, b"readyok|ok")?;
    let faults = output.faults();
    write!(told, " {faults} {} ", writer.flushed)?;
    told.extend_from_slice(&writer.written)?;
    Ok(told)
}

#[test]
fn a_writer_gets_each_piece_and_its_failure_is_a_fault(rt: HostRuntime) {
    let alloc = rt.alloc();
    let taken = narrow_puts(alloc, 9, 2).expect(&rt, "no fault");
    expect(&rt, taken.as_slice() == b"++ 0 9 readyokok".as_slice());
    let full = narrow_puts(alloc, 8, 2).expect(&rt, "no fault");
    expect(&rt, full.as_slice() == b"+- 1 7 readyoko".as_slice());
    let stuck = narrow_puts(alloc, 9, 1).expect(&rt, "no fault");
    expect(&rt, stuck.as_slice() == b"+- 1 7 readyokok".as_slice());
}

#[test]
fn standard_output_takes_a_piece(rt: HostRuntime) {
    let put = StandardOutput::new(rt.stdout()).put(b"on its way\n");
    expect(&rt, put == Ok::<(), Failed>(()));
}

// A reader that gives at most 3 bytes a call, and fails with this kind of error at the calls of these numbers.
#[derive(Drop)]
struct Halting {
    text: &'static [u8],
    calls: u64,
    failing: &'static [u64],
    kind: ErrorKind,
}

impl Read for Halting {
    fn read(&mut self, buf: &mut [u8]) -> io::Result<usize> {
        self.calls = self.calls.saturating_add(1);
        if self.failing.contains(&self.calls) {
            return Err(io::Error::from(self.kind));
        }
        let given = self.text.len().min(buf.len()).min(3);
        buf[..given].copy_from_slice(&self.text[..given]);
        self.text = &self.text[given..];
        Ok(given)
    }
}

#[test]
fn standard_input_takes_up_a_line_that_a_failure_interrupts(rt: HostRuntime) {
    let alloc = rt.alloc();
    let reader = Halting {
        text: b"uci\r\n\nisready",
        calls: 0,
        failing: &[2, 4, 6],
        kind: ErrorKind::BrokenPipe,
    };
    let mut input = StandardInput::new(
        alloc,
        BufReader::new(alloc, reader).expect(&rt, "no fault"),
    ).expect(&rt, "no fault");
    let told = polls(alloc, &mut input, 7).expect(&rt, "no fault");
    expect(
        &rt,
        told.as_slice() == b"(fault)\nuci\n\n(fault)\n(fault)\nisready\n(end)\n".as_slice(),
    );
    expect(&rt, input.faults() == 3);
}

// What a long line and the next one are to standard input.
fn long_lines(alloc: Global, len: usize, end: &[u8]) -> Result<Vec<u8>, Memory> {
    let text = long_line(alloc, len, end)?;
    let mut input = StandardInput::new(alloc, text.as_slice())?;
    let mut line = LineBuf::new(alloc)?;
    let mut told = Vec::new(alloc);
    told.push(if input.next_line(&mut line) == Got::Line {
        b'+'
    } else {
        b'-'
    })?;
    let rest = lines(alloc, &mut input, 2)?;
    told.extend_from_slice(&rest)?;
    Ok(told)
}

#[test]
fn standard_input_takes_a_long_line_whole(rt: HostRuntime) {
    let alloc = rt.alloc();
    let fits = long_lines(alloc, MAX_LINE, b"\r\n").expect(&rt, "no fault");
    expect(&rt, fits.as_slice() == b"+next\n(end)\n".as_slice());
    for len in [MAX_LINE + 1, 3 * MAX_LINE] {
        let long = long_lines(alloc, len, b"\r\n").expect(&rt, "no fault");
        assert!(rt;
            long.as_slice() == b"-next\n(end)\n".as_slice(),
            "a line of {len} bytes"
        );
    }
}
