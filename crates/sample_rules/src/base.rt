//! The defaults of the options.
ghost use Rattle.std.specs.Prelude.{◌≡◌, ◌≤◌};
ghost use Rattle.sample_rules.specs.Base as Base;

use crate::regions::{NO_KINDS, NOWHERE, area};
use rules_model::{Position, Rules, Side, Value};

/// An empty board, with White to move.
pub fn empty() -> Position
    ensures { result ≡ Base.empty }
{
    Position {
        cells: [None; 120],
        hands: [[0; 26]; 2],
        gates: [0; 2],
        counter: 0,
        number: 1,
        rights: [[false; 2]; 2],
        checks: [0; 2],
        ep: None,
        side: Side::White,
    }
}

/// Rules without a piece, on a board of so many files and ranks, with what the options say by default: no castling,
/// since no king and no rook are there yet.
#[tactic(auto, unfolding(crate::specs::Base::base))]
pub fn base(files: u8, ranks: u8) -> Rules
    requires { 2 ≤ ranks }
    ensures { result ≡ Base.base files ranks }
{
    let board = area(0, files, 0, ranks);
    Rules {
        kinds: [
            None, None, None, None, None, None, None, None, None, None, None, None, None, None,
            None, None, None, None, None, None, None, None, None, None, None, None,
        ],
        start: empty(),
        promotion: [area(0, files, ranks - 1, ranks), area(0, files, 0, 1)],
        double_region: [area(0, files, 1, 2), area(0, files, ranks - 2, ranks - 1)],
        drop_region: [board, board],
        flag_region: [NOWHERE, NOWHERE],
        promotion_kinds: NO_KINDS,
        castle_rooks: NO_KINDS,
        n_move_kinds: NO_KINDS,
        extinct_kinds: NO_KINDS,
        n_move: 50,
        n_fold: 3,
        files,
        ranks,
        king: None,
        pawn: None,
        soldier: None,
        soldier_rank: 1,
        no_doubled: None,
        flag_kind: None,
        castle_king: 4,
        castle_near: 6,
        castle_far: 2,
        castle_rank: 1,
        extinct_most: 0,
        extinct_least: 0,
        extinction: None,
        n_fold_value: Value::Draw,
        stalemate: Value::Draw,
        checkmate: Value::Loss,
        must_promote_pawn: true,
        must_promote_piece: false,
        double_step: true,
        castling: false,
        checking: true,
        drop_checks: true,
        must_capture: false,
        drops: false,
        to_hand: false,
        pawn_first: false,
        pawn_zone: false,
        immobile_bad: false,
        gating: false,
        gate_hand: false,
        extinct_all: false,
        check_counting: false,
        flying: false,
    }
}
