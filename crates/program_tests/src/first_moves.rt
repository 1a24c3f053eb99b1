//! `keys`: the first moves that win, each within how many moves. The lists of chess are those of another program.
use crate::expect::expect;
use crate::runs::{is_cut, ran, refuses, tells};
use io_ports::MemFiles;

/// A mate in two by one move alone.
const ROOK: &str = "chess\n7k/R7/5K2/8/8/8/8/8 w - - 0 1\n";

/// A mate in one, and six other ways to mate in two.
const QUEEN: &str = "chess\n7k/8/5KQ1/8/8/8/8/8 w - - 0 1\n";

/// Two mates in one.
const ROOKS: &str = "chess\n7k/8/6K1/8/8/8/8/RR6 w - - 0 1\n";

/// Each move has its own least number, and the threads change nothing.
#[test]
fn first_moves_that_win_are_told(rt: HostRuntime) {
    tells(&rt, &["keys", "2"], ROOK, "f6g6 mate 2\nkeys 1\n");
    tells(&rt, &["keys", "1"], ROOK, "keys 0\n");
    let queen =
        "g6g1 mate 2\ng6g2 mate 2\ng6g3 mate 2\ng6g4 mate 2\ng6g5 mate 2\ng6g7 mate 1\ng6h6 mate 2\nkeys 7\n";
    tells(&rt, &["keys", "2"], QUEEN, queen);
    tells(&rt, &["--threads", "3", "keys", "2"], QUEEN, queen);
    let rooks = "a1a8 mate 1\nb1b8 mate 1\nkeys 2\n";
    tells(&rt, &["keys", "1"], ROOKS, rooks);
}

/// White wins where it has no piece. After a2 the pawn has to take the rook, and no move of White's own is needed then.
#[test]
fn a_reply_may_end_the_game(rt: HostRuntime) {
    let gift = "antichess\n8/8/8/8/8/1p6/8/R7 w - - 0 1\n";
    tells(&rt, &["keys", "1"], gift, "a1a2 mate 1\nkeys 1\n");
}

#[test]
fn games_are_not_asked_for_first_moves(rt: HostRuntime) {
    let late = "chess\n7k/8/5KQ1/8/8/8/8/8 w - - 99 80\n";
    refuses(&rt, &["keys", "1"], late, "error KeysFault 1 NearCount\n");
    let mated = "chess\nstartpos\nf2f3 e7e5 g2g4 d8h4\n";
    refuses(&rt, &["keys", "20"], mated, "error KeysFault 2 Ended\n");
    let bad = "chess\nstartpos\ne2e5\n";
    refuses(
        &rt,
        &["keys", "1"],
        bad,
        "error GameFault 5 BadMove 1 e2e5\n",
    );
}

/// Nothing is written where the source fails, and a front part where the sink does.
#[test]
fn first_moves_are_cut_short(rt: HostRuntime) {
    let mut files = MemFiles::new(rt.alloc());
    for call in 0..3 {
        let (answered, sink) = ran(
            &rt,
            &mut files,
            &["keys", "1"],
            ROOKS.as_bytes(),
            &[call],
            1000,
        );
        expect(&rt, answered == 4 && sink.taken().is_empty());
    }
    let rooks = b"a1a8 mate 1\nb1b8 mate 1\nkeys 2\n";
    is_cut(&rt, &mut files, &["keys", "1"], ROOKS.as_bytes(), rooks);
}
