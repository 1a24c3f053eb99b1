//! The adapters of the machine.
use super::{Halting, lines, polls, reads};
use crate::expect::expect;
use io_ports::{
    Clock, Files, Given, Got, LineBuf, MAX_FILE, MAX_LINE, MachineClock, MachineFiles,
    PatientReader, Polled, QueuedInput, Source,
};
use std::alloc::Global;
use std::io::{self, BufReader, BufWriter, ErrorKind, PipeWriter, Read, Write};
use std::process::Abort;
use std::sync::Arc;
use std::sync::atomic::{AtomicU64, Ordering};
use std::time::Duration;
use std::{env, fs, process, rt, thread};

// N lines with their numbers, then a line that is too long, and a last one with no end.
fn write_lines(writer: PipeWriter, alloc: Global, count: u32) -> io::Result<()> {
    let mut writer = BufWriter::new(alloc, writer)?;
    for number in 0..count {
        writeln!(writer, "{number}")?;
    }
    let long = vec![in alloc; b'a'; MAX_LINE + 1]?;
    writer.write_all(long.as_slice())?;
    writer.write_all(b"\r\nquit")?;
    writer.flush()
}

// Whether the next lines are N lines with their numbers.
fn counts_to<S: Source>(rt: &impl Abort, alloc: Global, source: &mut S, count: u32) -> bool {
    let mut line = LineBuf::new(alloc).expect(rt, "no fault");
    for number in 0..count {
        let got = source.next_line(&mut line);
        let text = format!(in alloc; "{number}").expect(rt, "no fault");
        if got != Got::Line || line.text() != text.as_bytes() {
            return false;
        }
    }
    true
}

#[test]
fn a_thread_reads_ahead(rt: HostRuntime) {
    let alloc = rt.alloc();
    let (reader, mut writer) = io::pipe(&rt).expect(&rt, "no fault");
    let mut input = QueuedInput::start(
        rt,
        alloc,
        BufReader::new(alloc, reader).expect(&rt, "no fault"),
    )
    .expect(&rt, "no fault");
    let told = polls(alloc, &mut input, 1).expect(&rt, "no fault");
    expect(&rt, told.as_slice() == b"(wait)\n".as_slice());
    writer.write_all(b"uci\r\n").expect(&rt, "no fault");
    let told = lines(alloc, &mut input, 1).expect(&rt, "no fault");
    expect(&rt, told.as_slice() == b"uci\n".as_slice());
    let writing = thread::spawn(&rt, move || write_lines(writer, alloc, 100_000)).expect(
        &rt, "no fault",
    );
    expect(&rt, counts_to(&rt, alloc, &mut input, 100_000));
    let told = lines(alloc, &mut input, 4).expect(&rt, "no fault");
    expect(
        &rt,
        told.as_slice() == b"(long)\nquit\n(end)\n(end)\n".as_slice(),
    );
    writing.join(&rt).expect(&rt, "no fault");
}

// A reader that counts its reads.
#[derive(Drop)]
struct Counted {
    text: &'static [u8],
    reads: Arc<AtomicU64, Global>,
}

impl Read for Counted {
    fn read(&mut self, buf: &mut [u8]) -> io::Result<usize> {
        self.reads.fetch_add(1, Ordering::SeqCst);
        self.text.read(buf)
    }
}

#[test]
fn nothing_is_read_before_a_line_is_asked_for(rt: HostRuntime) {
    let alloc = rt.alloc();
    let reads = Arc::new(alloc, AtomicU64::new(0)).expect(&rt, "no fault");
    let reader = Counted {
        text: b"go\nstop",
        reads: Arc::try_clone(&reads).expect(&rt, "no fault"),
    };
    let mut input = QueuedInput::start(
        rt,
        alloc,
        BufReader::new(alloc, reader).expect(&rt, "no fault"),
    )
    .expect(&rt, "no fault");
    thread::sleep(&rt, Duration::from_millis(30));
    expect(&rt, reads.load(Ordering::SeqCst) == 0);
    let told = lines(alloc, &mut input, 3).expect(&rt, "no fault");
    expect(&rt, told.as_slice() == b"go\nstop\n(end)\n".as_slice());
    expect(&rt, reads.load(Ordering::SeqCst) >= 2);
}

// Polls a source for at most ten seconds.
fn poll_until<S: Source>(clock: &impl rt::Clock, source: &mut S, line: &mut LineBuf) -> Polled {
    for _ in 0..1_000 {
        let answer = source.poll_line(line);
        if answer != Polled::NotYet {
            return answer;
        }
        thread::sleep(clock, Duration::from_millis(10));
    }
    Polled::NotYet
}

#[test]
fn a_poll_starts_the_reading(rt: HostRuntime) {
    let alloc = rt.alloc();
    let mut input = QueuedInput::start(rt, alloc, b"go\nstop".as_slice()).expect(&rt, "no fault");
    let mut line = LineBuf::new(alloc).expect(&rt, "no fault");
    expect(&rt, poll_until(&rt, &mut input, &mut line) == Polled::Line);
    expect(&rt, line.text() == b"go".as_slice());
}

#[test]
fn a_reader_that_would_block_is_read_again(rt: HostRuntime) {
    let alloc = rt.alloc();
    let reader = Halting {
        text: b"uci\nquit\n",
        calls: 0,
        failing: &[1, 3, 4],
        kind: ErrorKind::WouldBlock,
    };
    let patient = PatientReader::new(rt, reader);
    let mut input = QueuedInput::start(
        rt,
        alloc,
        BufReader::new(alloc, patient).expect(&rt, "no fault"),
    )
    .expect(&rt, "no fault");
    let told = lines(alloc, &mut input, 3).expect(&rt, "no fault");
    expect(&rt, told.as_slice() == b"uci\nquit\n(end)\n".as_slice());
}

#[test]
fn files_of_the_machine_have_a_named_answer_each(rt: HostRuntime) {
    let mut files = MachineFiles::new(rt);
    let names = b"/ /dev/null/a.ini /dev/null /dev/zero none \xff";
    let told = reads(rt.alloc(), &mut files, names).expect(&rt, "no fault");
    expect(
        &rt,
        told.as_slice() == b"fault missing 0 large missing fault ".as_slice(),
    );
    expect(&rt, files.faults() == 2);
}

#[test]
fn a_file_of_the_machine_is_read_whole(rt: HostRuntime) {
    let alloc = rt.alloc();
    let folder = env::temp_dir(&rt).expect(&rt, "no fault");
    let id = process::id(rt.process());
    let path = format!(in alloc; "{}/io_ports_{id}", folder.display()).expect(&rt, "no fault");
    let mut bytes = vec![in alloc; b'a'; MAX_FILE].expect(&rt, "no fault");
    fs::write(&rt, path.as_str(), bytes.as_slice()).expect(&rt, "no fault");
    let (mut files, mut out) = (MachineFiles::new(rt), Vec::new(alloc));
    expect(&rt, files.read(path.as_bytes(), &mut out) == Given::Bytes);
    expect(&rt, out.as_slice() == bytes.as_slice());
    bytes.push(b'a').expect(&rt, "no fault");
    fs::write(&rt, path.as_str(), bytes.as_slice()).expect(&rt, "no fault");
    expect(
        &rt,
        files.read(path.as_bytes(), &mut out) == Given::TooLarge,
    );
    fs::remove_file(&rt, path.as_str()).expect(&rt, "no fault");
}

#[test]
fn the_clock_of_the_machine_counts_milliseconds(rt: HostRuntime) {
    let mut clock = MachineClock::new(rt);
    let first = clock.now();
    thread::sleep(&rt, Duration::from_millis(30));
    let second = clock.now();
    expect(&rt, first < 10_000);
    expect(&rt, second >= first && second - first >= 30);
}
