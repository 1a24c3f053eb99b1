//! The forms in memory.
use super::{lines, long_line, pass, polls, puts, reads};
use crate::expect::expect;
use io_ports::{
    Clock, Dialect, Gate, LineBuf, ListClock, MAX_FILE, MAX_LINE, MemFiles, MemSink, MemSource,
    OpenGate, Polled, PollsOwed, Ports, QuietSource, Sink, SinkFault, Source,
};

fn poll_and_put<S: Source, K: Sink, C: Clock, G: Gate>(
    ports: &mut Ports<'_, '_, '_, '_, S, K, C, G>,
    line: &mut LineBuf,
) -> bool {
    ports.gate.pass(1, ports.clock.now());
    ports.source.poll_line(line) == Polled::NotYet && ports.sink.put(b"ok").is_ok()
}

#[test]
fn ports_are_lent_and_a_quiet_source_stops_nothing(rt: HostRuntime) {
    let alloc = rt.alloc();
    let mut line = LineBuf::new(alloc).expect(&rt, "no fault");
    let (mut sink, mut clock) = (
        MemSink::new(alloc, 2).expect(&rt, "no fault"),
        ListClock::new(alloc, &[5]).expect(&rt, "no fault"),
    );
    let mut ports = Ports {
        source: &mut QuietSource,
        sink: &mut sink,
        clock: &mut clock,
        gate: &OpenGate,
        dialect: Dialect::Uci,
    };
    expect(&rt, poll_and_put(&mut ports, &mut line));
    expect(&rt, sink.taken() == b"ok".as_slice() && clock.count() == 1);
}

#[test]
fn lines_end_at_lf_or_at_the_end_and_lose_a_final_cr(rt: HostRuntime) {
    let alloc = rt.alloc();
    let text = b"uci\r\n\n\r\na\rb\r\r\nlast\r";
    let mut source = MemSource::new(alloc, text.as_slice(), PollsOwed::Number(2), &[1, 5]).expect(
        &rt, "no fault",
    );
    let told = polls(alloc, &mut source, 10).expect(&rt, "no fault");
    let wanted = b"(wait)\n(fault)\n(wait)\nuci\n\n(fault)\n\na\rb\r\nlast\n(end)\n";
    expect(&rt, told.as_slice() == wanted.as_slice());
    expect(&rt, source.faults() == 2);
}

#[test]
fn a_line_is_too_long_by_its_bytes_without_the_cr(rt: HostRuntime) {
    let alloc = rt.alloc();
    let text = long_line(alloc, MAX_LINE + 1, b"\n").expect(&rt, "no fault");
    let mut source = MemSource::new(alloc, &text, PollsOwed::Endless, &[]).expect(&rt, "no fault");
    let told = lines(alloc, &mut source, 2).expect(&rt, "no fault");
    expect(&rt, told.as_slice() == b"(long)\nnext\n".as_slice());
}

#[test]
fn a_piece_is_taken_as_far_as_it_fits(rt: HostRuntime) {
    let alloc = rt.alloc();
    let mut sink = MemSink::new(alloc, 5).expect(&rt, "no fault");
    let told = puts(alloc, &mut sink, b"abc|defg||h").expect(&rt, "no fault");
    expect(&rt, told.as_slice() == b"+-+-".as_slice());
    expect(
        &rt,
        sink.taken() == b"abcde".as_slice() && sink.faults() == 2,
    );
}

#[test]
fn a_sink_fails_in_the_middle_and_goes_on(rt: HostRuntime) {
    let alloc = rt.alloc();
    let failing = [
        SinkFault { call: 1, taken: 2 },
        SinkFault { call: 2, taken: 9 },
    ];
    let mut sink = MemSink::failing(alloc, 9, &failing).expect(&rt, "no fault");
    let told = puts(alloc, &mut sink, b"ab|cdef|gh|i").expect(&rt, "no fault");
    expect(&rt, told.as_slice() == b"+--+".as_slice());
    expect(
        &rt,
        sink.taken() == b"abcdghi".as_slice() && sink.faults() == 2,
    );
}

#[test]
fn files_are_found_by_name(rt: HostRuntime) {
    let alloc = rt.alloc();
    let mut files = MemFiles::new(alloc);
    let mut large = vec![in alloc; b'a'; MAX_FILE].expect(&rt, "no fault");
    files.add(b"full", large.as_slice()).expect(&rt, "no fault");
    large.push(b'a').expect(&rt, "no fault");
    files
        .add(b"large", large.as_slice())
        .expect(&rt, "no fault");
    files.add(b"a", b"one").expect(&rt, "no fault");
    files.add(b"a", b"second").expect(&rt, "no fault");
    files.fail_at(1).expect(&rt, "no fault");
    let told = reads(alloc, &mut files, b"large full full a b").expect(&rt, "no fault");
    expect(
        &rt,
        told.as_slice() == b"large fault 1048576 3 missing ".as_slice(),
    );
    expect(&rt, files.faults() == 1);
}

#[test]
fn the_last_reading_comes_again(rt: HostRuntime) {
    let mut clock = ListClock::new(rt.alloc(), &[7, 5]).expect(&rt, "no fault");
    expect(&rt, clock.now() == 7);
    expect(&rt, clock.now() == 5 && clock.now() == 5);
    expect(&rt, clock.count() == 3);
    pass(&OpenGate, 0);
}
