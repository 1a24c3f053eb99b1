//! The steps around a step in a certificate's tree.
ghost use Rattle.std.specs.Prelude.{◌≡◌, reverse};
ghost use Rattle.std.specs.List.{list_any};
ghost use Rattle.foundation.specs.Tests.{is_nil};
ghost use Rattle.rules_model.specs.Moves as Moves;
ghost use Rattle.stipulation.specs.Trees.{moves_at};
ghost use Rattle.stipulation.specs.Verdicts as Verdicts;

use crate::cert::Step;
use rules_model::{Move, is_same_move};

/// Whether one of the steps of the ply, before the first step of a lower one, has the move.
#[tactic(auto, unfolding(crate::specs::Trees::moves_at))]
pub(crate) fn has_move(steps: &[Step], ply: u32, m: &Move) -> bool
    ensures { result ≡ list_any (Moves.same_move m.now) (moves_at ply steps.now) }
{
    for s in steps {
        let at = u32::from(s.ply);
        if at < ply {
            return false;
        }
        if at == ply && is_same_move(m, &s.chosen) {
            return true;
        }
    }
    false
}

/// Whether the first of the steps that has the ply or a lower one has a lower one, or there is none.
#[tactic(auto, unfolding(crate::specs::Trees::moves_at))]
pub(crate) fn has_none(steps: &[Step], ply: u32) -> bool
    ensures { result ≡ is_nil (moves_at ply steps.now) }
{
    for s in steps {
        if u32::from(s.ply) <= ply {
            return u32::from(s.ply) < ply;
        }
    }
    true
}

/// The same as `has_move`, from the last of the steps on.
#[tactic(auto, unfolding(crate::specs::Trees::moves_at))]
pub(crate) fn had_move(earlier: &[Step], ply: u32, m: &Move) -> bool
    ensures { result ≡ list_any (Moves.same_move m.now) (moves_at ply (reverse earlier.now)) }
{
    let mut left = earlier.len();
    while left > 0 {
        left -= 1;
        let s = &earlier[left];
        let at = u32::from(s.ply);
        if at < ply {
            return false;
        }
        if at == ply && is_same_move(m, &s.chosen) {
            return true;
        }
    }
    false
}

/// The same as `has_none`, from the last of the steps on.
#[tactic(auto, unfolding(crate::specs::Trees::moves_at))]
pub(crate) fn had_none(earlier: &[Step], ply: u32) -> bool
    ensures { result ≡ is_nil (moves_at ply (reverse earlier.now)) }
{
    let mut left = earlier.len();
    while left > 0 {
        left -= 1;
        let at = u32::from(earlier[left].ply);
        if at <= ply {
            return at < ply;
        }
    }
    true
}

/// The first of the moves that no child has: the children have the ply, and stand at the front of the steps.
#[tactic(auto, unfolding(crate::specs::Verdicts::first_missing))]
pub(crate) fn first_missing(steps: &[Step], ply: u32, moves: &[Move]) -> Option<Move>
    ensures { result ≡ Verdicts.first_missing (moves_at ply steps.now) moves.now }
{
    for m in moves {
        if !has_move(steps, ply, m) {
            return Some(*m);
        }
    }
    None
}
