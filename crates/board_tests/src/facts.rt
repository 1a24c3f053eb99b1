//! Tests of `forced_wins`.
use crate::expect::expect;
use forced_wins::{Fact, is_falling};
use rules_model::{Repeat, Side};

#[test]
fn a_win_in_three_and_a_refutation(rt: HostRuntime) {
    let repeat = Repeat {
        cells: [None; 120],
        hands: [[0; 26]; 2],
        gates: [0; 2],
        rights: [[false; 2]; 2],
        checks: [0; 2],
        ep: None,
        side: Side::White,
    };
    for (wins, counter, moves, want) in [
        (true, 10, 3, true),
        (true, 0, 4, true),
        (true, 11, 3, false),
        (true, 10, 2, false),
        (false, 10, 3, true),
        (false, 99, 0, true),
        (false, 9, 3, false),
        (false, 10, 4, false),
    ] {
        let fact = Fact {
            repeat,
            attacker: Side::White,
            moves: 3,
            counter: 10,
            best: None,
            wins,
        };
        assert!(rt;
            fact.covers(counter, moves) == want,
            "{wins} at {counter} within {moves}"
        );
    }
    expect(
        &rt,
        is_falling(true, 2, 1)
            && !is_falling(true, 2, 2)
            && is_falling(false, 2, 2)
            && !is_falling(false, 2, 3),
    );
}
