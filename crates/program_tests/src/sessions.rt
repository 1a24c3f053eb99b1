//! Sessions, from their first line to their last.
use crate::expect::{expect, expect_of};
use crate::runs::{ROOM, ran_over, tells};
use io_ports::{MemFiles, MemSink, MemSource, PollsOwed};

/// The lines of a session end at `quit`, or with the input. Without words it is UCI's.
#[test]
fn sessions_are_held(rt: HostRuntime) {
    tells(&rt, &[], "isready\nquit\nisready\n", "readyok\n");
    tells(&rt, &["--threads", "2"], "please isready now", "readyok\n");
    tells(&rt, &["uci"], "stop\nquit\n", "");
    tells(&rt, &["uci"], "", "");
    tells(&rt, &["xboard"], "ping 7\nquit\nping 8\n", "pong 7\n");
    tells(&rt, &["xboard"], "ping 7\nping 8\n", "pong 7\npong 8\n");
}

/// A search for a mate in two, and a line that may stop it.
const TWO: &[u8] = b"position fen 7k/R7/5K2/8/8/8/8/8 w - - 0 1\ngo mate 2\nstop\nquit\n";

/// A search for a mate that is stopped by the next line after this number of polls, at most, has found it or says that
/// it was stopped.
#[test]
fn a_search_for_a_mate_is_stopped_or_whole(rt: HostRuntime) {
    let mut files = MemFiles::new(rt.alloc());
    for polls in 0..41u64 {
        let source = MemSource::new(rt.alloc(), TWO, PollsOwed::Number(polls), &[]).expect(
            &rt, "no fault",
        );
        let sink = MemSink::new(rt.alloc(), ROOM).expect(&rt, "no fault");
        let (status, sink) = ran_over(&rt, &mut files, &["uci"], source, sink);
        let stopped = sink.taken() == b"info string stopped\nbestmove a7a1\n".as_slice();
        let found = sink.taken()
            == b"info depth 3 score mate 2 pv f6g6\nbestmove f6g6\n".as_slice();
        expect_of(&rt, &polls, status == 0 && (stopped || found));
        expect(&rt, stopped || polls != 0);
        expect(&rt, found || polls != 40);
    }
}
