//! Extinction: a side with few pieces, or few of a kind, against enough of the other side's.
ghost use Rattle.std.specs.Prelude.{◌≡◌, ◌+◌, ◌<◌, Some, count_by, nat_le, nat_lt, slice_index, slice_set};
ghost use Rattle.foundation.specs.Count.{any_below};
ghost use Rattle.rules_model.specs.Ends as Ends;
ghost use Rattle.rules_model.specs.Hands as Hands;
ghost use Rattle.rules_model.specs.Repeats.{repeat_of};
ghost use Rattle.rules_model.specs.Sides.{other};
ghost use Rattle.move_tables.specs.Occupied.{IsOccupied};
ghost use Rattle.end_rules.specs.Tallies.{AreTallies, all_die_out};

use crate::valued;
use rules_model::kinds::{in_hand, masks};
use rules_model::soundness::{is_of, pieces_of};
use rules_model::{Cause, Cell, Cells, KINDS, Kind, Outcome, Position, Rules, Side, Value};
use square_set::Set;

/// Counts a piece of the kind.
fn add(tally: &mut [u8; KINDS], kind: Kind)
    requires { kind.0 < 26 → slice_index tally.old kind.0 < 255 }
    ensures { tally.new ≡ slice_set tally.old kind.0 (slice_index tally.old kind.0 + 1) }
{
    let kind = kind.0 as usize;
    if kind < KINDS {
        tally[kind] += 1;
    }
}

/// Counts a piece of a board for its side.
fn count(tallies: &mut [[u8; KINDS]; 2], piece: Cell)
    requires { piece.kind.0 < 26 → Hands.in_hand tallies.old piece.side piece.kind < 255 }
    ensures { tallies.new ≡ Hands.taken_in tallies.old piece.side piece.kind }
{
    add(&mut tallies[piece.side.index()], piece.kind);
}

/// How many pieces of each kind each side has on the board, by the squares on which they stand.
fn tallies_of(cells: &Cells, occupied: Set) -> [[u8; KINDS]; 2]
    requires { IsOccupied occupied cells.now }
    ensures { AreTallies cells.now result }
{
    let mut tallies = [[0u8; KINDS]; 2];
    let mut left = occupied;
    while let Some(at) = left.take_first() {
        if let Some(piece) = cells[at as usize] {
            count(&mut tallies, piece);
        }
    }
    tallies
}

/// How many pieces of the kind the side has on the board and in its hand.
#[tactic(auto, unfolding(rules_model::specs::Ends::pieces_of_kind))]
fn pieces_of_kind(p: &Position, tallies: &[[u8; KINDS]; 2], side: Side, kind: Kind) -> usize
    requires tallies { AreTallies p.now.cells tallies.now }
    requires kind { kind.0 < 26 }
    ensures { result ≡ Ends.pieces_of_kind (repeat_of p.now) side kind }
{
    in_hand(tallies, side, kind) as usize + in_hand(&p.hands, side, kind) as usize
}

/// Whether the variant lists the kind, the side has few enough pieces of it and its opponent many enough.
#[tactic(auto, unfolding(rules_model::specs::Ends::kind_dies_out))]
fn kind_dies_out(
    rules: &Rules,
    p: &Position,
    tallies: &[[u8; KINDS]; 2],
    side: Side,
    kind: u8,
) -> bool
    requires tallies { AreTallies p.now.cells tallies.now }
    requires kind { kind < 26 }
    ensures { result ≡ Ends.kind_dies_out rules.now (repeat_of p.now) side kind }
{
    let kind = Kind(kind);
    masks(&rules.extinct_kinds, kind)
        && pieces_of_kind(p, tallies, side, kind) <= rules.extinct_most as usize
        && rules.extinct_least as usize <= pieces_of_kind(p, tallies, side.other(), kind)
}

#[tactic(auto, using(foundation::proofs::CountLemmas::any))]
fn some_kind_dies_out(rules: &Rules, p: &Position, tallies: &[[u8; KINDS]; 2], side: Side) -> bool
    requires { AreTallies p.now.cells tallies.now }
    ensures { result ≡ any_below (Ends.kind_dies_out rules.now (repeat_of p.now) side) 26 }
{
    for kind in 0..26 {
        if kind_dies_out(rules, p, tallies, side, kind) {
            return true;
        }
    }
    false
}

/// Whether the side has more than `most` pieces on the board. It stops at the first that is too many.
fn stand_more(cells: &Cells, side: Side, most: usize) -> bool
    ensures { result ≡ nat_lt most (count_by (Ends.is_of side) cells.now) }
{
    let mut found: usize = 0;
    for at in 0..120usize {
        if is_of(side, cells[at]) {
            found += 1;
        }
        if found > most {
            return true;
        }
    }
    false
}

/// Whether the side has at most `most` pieces. Not all are counted where the board has too many.
fn has_at_most(p: &Position, side: Side, most: usize) -> bool
    ensures { result ≡ nat_le (Ends.pieces_of (repeat_of p.now) side) most }
{
    !stand_more(&p.cells, side, most) && pieces_of(p, side) <= most
}

/// Whether the side has few enough pieces of all kinds together and its opponent many enough. The opponent's are
/// counted only where the side has few enough.
fn all_die_out(rules: &Rules, p: &Position, side: Side) -> bool
    ensures { result ≡ all_die_out rules.now (repeat_of p.now) side }
{
    has_at_most(p, side, rules.extinct_most as usize)
        && rules.extinct_least as usize <= pieces_of(p, side.other())
}

/// Whether the side that has moved has died out, and whether the side to move has: by one listed kind, or by all kinds
/// together. The occupied squares are looked at once for all listed kinds.
#[tactic(auto, unfolding(rules_model::specs::Ends::is_extinct))]
fn are_extinct(rules: &Rules, p: &Position, occupied: Set) -> (bool, bool)
    requires { IsOccupied occupied p.now.cells }
    ensures moved { result.0 ≡ Ends.is_extinct rules.now (repeat_of p.now) (other p.now.side) }
    ensures moves { result.1 ≡ Ends.is_extinct rules.now (repeat_of p.now) p.now.side }
{
    let moved = p.side.other();
    if rules.extinct_all {
        return (all_die_out(rules, p, moved), all_die_out(rules, p, p.side));
    }
    let tallies = tallies_of(&p.cells, occupied);
    (
        some_kind_dies_out(rules, p, &tallies, moved),
        some_kind_dies_out(rules, p, &tallies, p.side),
    )
}

/// The end by extinction, of this value for the side that dies out; the side that has moved comes first.
fn extinction_by(rules: &Rules, p: &Position, occupied: Set, value: Value) -> Outcome
    requires { IsOccupied occupied p.now.cells }
    ensures { result ≡ Ends.extinction_by rules.now (repeat_of p.now) (Some value) }
{
    match are_extinct(rules, p, occupied) {
        (true, _) => valued(value, p.side.other(), Cause::Extinction),
        (false, true) => valued(value, p.side, Cause::Extinction),
        (false, false) => Outcome::Ongoing,
    }
}

/// The end by extinction, where the variant has it.
pub(crate) fn extinction_end(rules: &Rules, p: &Position, occupied: Set) -> Outcome
    requires { IsOccupied occupied p.now.cells }
    ensures { result ≡ Ends.extinction_by rules.now (repeat_of p.now) rules.now.extinction }
{
    match rules.extinction {
        None => Outcome::Ongoing,
        Some(value) => extinction_by(rules, p, occupied, value),
    }
}
