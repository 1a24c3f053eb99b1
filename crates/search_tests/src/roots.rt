//! Tests of `negamax`.
ghost use Rattle.std.specs.Prelude.{◌+◌, ◌<◌, ◌≤◌, All, IfOk, length};
ghost use Rattle.foundation.specs.Member.{Member};
ghost use Rattle.game_line.specs.Lined.{legal_in};
ghost use Rattle.rules_model.specs.Fit.{IsFit};

use crate::expect::{expect_eq, expect_eq_at, expect_of};
use foundation::Memory;
use game_line::Line;
use game_play::Game;
use hint_table::HintTable;
use negamax::{Best, SearchState, Window, combine, score_move, search_move};
use rules_model::{Move, MoveList, Position, Promo, Rules, sound};
use sample_rules::{capablanca, chess, position, square, xiangqi};
use std::alloc::Global;
use std::process::Abort;
use watching::{Cut, Halt, Helper, StopFlag, Watch};

/// The move of a text such as `e2-e4`, without promotion.
fn go(text: &str) -> Move {
    let (from, to) = text.split_once('-').unwrap_or(("", ""));
    Move::Go {
        from: square(from),
        to: square(to),
        promo: Promo::Stays,
        gate: None,
    }
}

/// The game of the moves from the position.
fn game<R: Abort>(rt: &R, alloc: Global, rules: &Rules, start: &Position, moves: &str) -> Game
    requires { IsFit rules.now }
{
    assert!(rt; sound(rules, start));
    let mut game = Game::new(alloc, rules, start).expect(rt, "no fault");
    for text in moves.split(' ') {
        if !text.is_empty() {
            expect_eq_at(rt, text, game.play(&go(text)), Ok(()));
        }
    }
    game
}

/// The legal moves after the line.
fn roots_of(alloc: Global, line: &Line) -> Result<MoveList, Memory>
    ensures { IfOk result (λ roots. All (λ m. Member m (legal_in line.now)) roots) }
{
    let roots = line.board().legal_moves(alloc)?;
    Ok(roots)
}

/// The best of the game's moves at a depth, by a worker that may enter so many nodes; and the nodes that it entered.
fn search_all<R: Abort>(
    rt: &R,
    alloc: Global,
    game: &Game,
    depth: u8,
    quota: Option<u64>,
) -> (Result<Best, Halt>, u64)
    requires least { 1 ≤ depth }
    requires most { depth ≤ 9 }
{
    let hints = HintTable::new(alloc, 1000).expect(rt, "no fault");
    let flag = StopFlag::new();
    let mut watch = Helper::new(&flag, quota);
    let mut line = Line::new(alloc, game, 20).expect(rt, "no fault");
    let mut state = SearchState::new(alloc, &hints).expect(rt, "no fault");
    let Ok(roots) = roots_of(alloc, &line) else {
        panic!(rt; "no memory");
    };
    assert!(rt; roots.items.len() > 0);
    let best = best_of(&mut line, &mut state, &mut watch, depth, &roots);
    (best, watch.nodes())
}

/// The best of the moves at a depth, the first of them searched alone.
fn best_of(
    line: &mut Line,
    state: &mut SearchState,
    watch: &mut Helper,
    depth: u8,
    roots: &MoveList,
) -> Result<Best, Halt>
    requires least { 1 ≤ depth }
    requires most { depth ≤ 9 }
    requires room { length line.old.moves + depth + 4 ≤ line.old.room }
    requires legal { All (λ m. Member m (legal_in line.old)) roots.now }
    requires some { 0 < length roots.now }
{
    let open = Window::open();
    let chosen = roots.items[0];
    let value = score_move(line, state, watch, depth, 0, &chosen, open)?;
    let first = Best { value, chosen };
    let others = &roots.items[1..];
    combine(line, state, watch, depth, 0, others, &[], open, first)
}

/// Asserts what the game is worth at the first three depths.
fn is_worth<R: Abort>(rt: &R, alloc: Global, rules: &Rules, moves: &str, values: [i32; 3])
    requires { IsFit rules.now }
{
    let game = game(rt, alloc, rules, &rules.start, moves);
    for i in 0..3usize {
        let (best, _nodes) = search_all(rt, alloc, &game, i as u8 + 1, None);
        let value = best.map_or(0, |best| best.value);
        expect_eq_at(rt, moves, value, values[i]);
    }
}

// The values are those of an independent model of the rules.
#[test]
fn values_of_games(rt: HostRuntime) {
    let rows = [
        ("g2-g4 h7-h5 g4-h5", [16, 16, 16]),
        ("g2-g3 b7-b6 b2-b3", [8, -4, 8]),
    ];
    for (moves, values) in rows {
        is_worth(&rt, rt.alloc(), &chess(), moves, values);
    }
    let moves = "b3-b10 a10-b10 h3-i3";
    is_worth(&rt, rt.alloc(), &xiangqi(), moves, [192, 176, 301]);
    is_worth(&rt, rt.alloc(), &capablanca(), "", [12, 0, 12]);
}

/// The back rank is open to the rook, and the black king shut in by its pawns.
const MATE: &str = "Kg1 Ra1 kg8 pf7 pg7 ph7";

#[test]
fn mates_are_found(rt: HostRuntime) {
    let game = game(&rt, rt.alloc(), &chess(), &position(MATE), "");
    for depth in 1..4u8 {
        let (best, _nodes) = search_all(&rt, rt.alloc(), &game, depth, None);
        let found = best.map_or((0, None), |best| (best.value, Some(best.chosen)));
        expect_of(&rt, &depth, found == (31_999, Some(go("a1-a8"))));
    }
}

#[test]
fn a_watch_ends_a_search(rt: HostRuntime) {
    let game = game(&rt, rt.alloc(), &chess(), &position(MATE), "");
    let (best, nodes) = search_all(&rt, rt.alloc(), &game, 4, Some(100));
    expect_eq(&rt, best.err(), Some(Halt::Cut(Cut::Quota(100))));
    expect_eq(&rt, nodes, 100);
}

/// What a search of the move above the floor and below the roof says: the least and the most that it scores; and how
/// many nodes it enters.
fn search_between<R: Abort>(
    rt: &R,
    alloc: Global,
    game: &Game,
    chosen: &Move,
    floor: i32,
    roof: i32,
) -> ((i32, i32), u64) {
    let hints = HintTable::new(alloc, 1000).expect(rt, "no fault");
    let flag = StopFlag::new();
    let mut watch = Helper::new(&flag, None);
    let mut line = Line::new(alloc, game, 20).expect(rt, "no fault");
    let mut state = SearchState::new(alloc, &hints).expect(rt, "no fault");
    assert!(rt; line.board().is_legal(chosen));
    let window = Window::between(floor, roof);
    let fact = search_move(&mut line, &mut state, &mut watch, 2, 0, chosen, window);
    let says = fact.map_or((0, 0), |fact| (fact.least, fact.most));
    (says, watch.nodes())
}

#[test]
fn facts_within_windows(rt: HostRuntime) {
    let game = game(&rt, rt.alloc(), &chess(), &position("Kg1 kg8 Qd1 rd8"), "");
    let takes = go("d1-d8");
    // the queen is worth 800, and 12 more on d8
    let rows = [
        (i32::MIN, i32::MAX, (812, 812)),
        (811, 813, (812, 812)),
        (811, 812, (812, 32_001)),
        (812, 813, (-32_001, 812)),
        (812, i32::MAX, (-32_001, 812)),
    ];
    for (floor, roof, says) in rows {
        let (fact, _nodes) = search_between(&rt, rt.alloc(), &game, &takes, floor, roof);
        expect_of(&rt, &floor, fact == says);
    }
}

/// The black king alone against king and queen, after so many plies without a capture.
fn bare_king<R: Abort>(rt: &R, alloc: Global, counter: u16) -> Game {
    let mut p = position("Kg1 kg8 Qd1");
    p.counter = counter;
    game(rt, alloc, &chess(), &p, "")
}

// The replies to the move are worth so little to the black king that none is entered, but where they end the game: the
// hundredth ply is a draw.
#[test]
fn replies_are_settled_unentered(rt: HostRuntime) {
    let chosen = go("d1-d2");
    let game = bare_king(&rt, rt.alloc(), 0);
    let ((least, most), nodes) = search_between(&rt, rt.alloc(), &game, &chosen, 10, 20);
    assert!(rt; least > 700 && most == 32_001 && nodes == 1);
    let late = bare_king(&rt, rt.alloc(), 98);
    let (says, nodes) = search_between(&rt, rt.alloc(), &late, &chosen, 10, 20);
    assert!(rt; says == (-32_001, 0) && nodes > 1);
}
