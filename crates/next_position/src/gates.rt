//! The gates after a move.
ghost use Rattle.std.specs.Prelude.{◌≡◌, ◌<◌};
ghost use Rattle.rules_model.specs.Fit.{IsFit};
ghost use Rattle.rules_model.specs.Gates as Gates;
ghost use Rattle.rules_model.specs.Moves.{IsFitMove};
ghost use Rattle.rules_model.specs.Next as Next;
ghost use Rattle.next_position.specs.Parts as Parts;

use rules_model::castling::rook_target;
use rules_model::kinds::first_rank;
use rules_model::{Move, Rules, Side, Square};

fn without_gate(gates: u16, file: u8) -> u16
    requires { file < 12 }
    ensures { result ≡ Gates.without_gate gates file }
{
    gates & (65535 - (1 << file))
}

/// The side's gates after the square was left or entered.
fn closed_at(rules: &Rules, side: Side, at: Square, gates: u16) -> u16
    requires { IsFit rules.now }
    ensures { result ≡ Gates.closed_at rules.now side at.0 gates }
{
    if at.rank() == first_rank(rules, side) {
        without_gate(gates, at.file())
    } else {
        gates
    }
}

/// The side's gates after the move.
fn side_gates(rules: &Rules, side: Side, m: &Move, gates: u16) -> u16
    requires fit { IsFit rules.now }
    requires move_fits { IsFitMove m.now }
    ensures { result ≡ Next.side_gates_after rules.now side m.now gates }
{
    if gates == 0 {
        return 0;
    }
    match *m {
        Move::Go { from, to, .. } => {
            let left = closed_at(rules, side, from, gates);
            closed_at(rules, side, to, left)
        }
        Move::Castle { from, to, rook, .. } => {
            let king_left = closed_at(rules, side, from, gates);
            let both_left = closed_at(rules, side, rook, king_left);
            let king_entered = closed_at(rules, side, to, both_left);
            closed_at(
                rules,
                side,
                Square(rook_target(from, to, rook)),
                king_entered,
            )
        }
        Move::Drop { to, .. } => closed_at(rules, side, to, gates),
    }
}

/// Closes the gates of the squares that the move leaves and enters.
pub(crate) fn close(rules: &Rules, m: &Move, gates: &mut [u16; 2])
    requires fit { IsFit rules.now }
    requires move_fits { IsFitMove m.now }
    ensures { gates.new ≡ Parts.gates_by rules.now m.now gates.old }
{
    *gates = [
        side_gates(rules, Side::White, m, gates[0]),
        side_gates(rules, Side::Black, m, gates[1]),
    ];
}
