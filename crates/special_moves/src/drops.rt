//! Drops: a hand piece is put on an empty square.
ghost use Rattle.std.specs.Prelude.{◌≡◌, ◌<◌, true, is_none, OnOk, OnErr};
ghost use Rattle.foundation.specs.Count.{any_below};
ghost use Rattle.piece_moves.specs.Taking.{TakesAll, TakesSome};
ghost use Rattle.rules_model.specs.Drops as Drops;
ghost use Rattle.rules_model.specs.Fit.{IsFit};
ghost use Rattle.rules_model.specs.Repeats.{repeat_of};
ghost use Rattle.rules_model.specs.Squares.{cell_at};
ghost use Rattle.board_sets.specs.Sets.{AreSets};
ghost use Rattle.special_moves.specs.Parts as Parts;
ghost use Rattle.special_moves.specs.Parts.{IsDrop, IsDropOf};

use attack_tables::Tables;
use board_sets::BoardSets;
use piece_moves::MoveSink;
use rules_model::kinds::{first_rank, in_hand, in_region, names};
use rules_model::{Cells, KINDS, Kind, Position, RANKS, Rules, Side, Square};
use square_set::Set;

/// Where a pawn is not dropped.
fn bars_pawn(rules: &Rules, side: Side, to: Square) -> bool
    requires { IsFit rules.now }
    ensures { result ≡ Drops.bars_pawn rules.now side to.0 }
{
    (to.rank() == first_rank(rules, side) && !rules.pawn_first)
        || (in_region(&rules.promotion, side, to.0) && !rules.pawn_zone)
}

/// Whether a piece of the side and the kind stands on the square of a file and a rank.
#[tactic(auto, unfolding(rules_model::specs::Drops::stands_on))]
fn stands_on(cells: &Cells, side: Side, kind: Kind, file: u8, rank: u8) -> bool
    requires file { file < 12 }
    requires rank { rank < 10 }
    ensures { result ≡ Drops.stands_on cells.now side kind file rank }
{
    match cells[Square::at(file, rank).0 as usize] {
        None => false,
        Some(cell) => cell.side.is(side) && cell.kind.0 == kind.0,
    }
}

/// Whether the side has a piece of the kind on the file.
#[tactic(auto, using(foundation::proofs::CountLemmas::any))]
fn stands_on_file(cells: &Cells, side: Side, kind: Kind, file: u8) -> bool
    requires { file < 12 }
    ensures { result ≡ any_below (Drops.stands_on cells.now side kind file) 10 }
{
    for rank in 0..RANKS {
        if stands_on(cells, side, kind, file, rank) {
            return true;
        }
    }
    false
}

/// Whether the side already has a piece of the kind on the file, and the kind may not be doubled.
fn is_doubled(rules: &Rules, p: &Position, kind: Kind, to: Square) -> bool
    ensures { result ≡ Drops.is_doubled rules.now p.now.cells p.now.side kind to.0 }
{
    names(rules.no_doubled, kind) && stands_on_file(&p.cells, p.side, kind, to.file())
}

fn is_empty(cells: &Cells, at: Square) -> bool
    ensures { result ≡ is_none (cell_at cells.now at.0) }
{
    match cells.get(at.0 as usize) {
        Some(cell) => cell.is_none(),
        None => true,
    }
}

/// Whether pieces of the kind are dropped at all: the variant has drops, and the side to move holds one.
fn has_drops(rules: &Rules, p: &Position, kind: Kind) -> bool
    ensures { result ≡ Parts.has_drops rules.now (repeat_of p.now) kind }
{
    rules.drops && in_hand(&p.hands, p.side, kind) > 0
}

/// Whether a piece of the kind may stand on the square once it was dropped there.
fn suits(rules: &Rules, p: &Position, kind: Kind, to: Square) -> bool
    requires { IsFit rules.now }
    ensures { result ≡ Parts.suits rules.now (repeat_of p.now) kind to.0 }
{
    !(names(rules.pawn, kind) && bars_pawn(rules, p.side, to)) && !is_doubled(rules, p, kind, to)
}

/// Whether a hand piece of the kind may be put on the square.
#[tactic(auto, using(crate::proofs::DropLemmas::drop_parts))]
pub(crate) fn drops_to(rules: &Rules, p: &Position, kind: Kind, to: Square) -> bool
    requires { IsFit rules.now }
    ensures { result ≡ Drops.drops_to rules.now (repeat_of p.now) kind to.0 }
{
    has_drops(rules, p, kind)
        && is_empty(&p.cells, to)
        && in_region(&rules.drop_region, p.side, to.0)
        && suits(rules, p, kind, to)
}

/// The empty squares of the side's drop region.
fn drop_squares(tables: &Tables, p: &Position, sets: &BoardSets) -> Set
    requires sets { AreSets tables.now p.now.side p.now.cells sets.now }
    ensures { Parts.AreDropSquares tables.now (repeat_of p.now) result }
{
    tables.drop_region(p.side).minus(sets.occupied())
}

/// Whether the kind alone tells that a piece of it suits each square: it is no pawn, and may be doubled.
fn suits_anywhere(rules: &Rules, kind: Kind) -> bool
    ensures { result ≡ Parts.suits_anywhere rules.now kind }
{
    !names(rules.pawn, kind) && !names(rules.no_doubled, kind)
}

/// Those of the squares on which a piece of the kind may stand once it was dropped there.
fn suited_squares(rules: &Rules, p: &Position, squares: Set, kind: Kind) -> Set
    requires { IsFit rules.now }
    ensures { Parts.AreSuited rules.now (repeat_of p.now) kind squares result }
{
    if suits_anywhere(rules, kind) {
        return squares;
    }
    let mut suited = squares;
    let mut left = squares;
    while let Some(to) = left.take_first() {
        if !suits(rules, p, kind, Square(to)) {
            suited = suited.without(to);
        }
    }
    suited
}

/// Gives the drops of a kind, of which a piece is in hand, on these squares.
fn push_kind<S: MoveSink>(
    rules: &Rules,
    p: &Position,
    squares: Set,
    kind: Kind,
    out: &mut S,
) -> Result<(), S::Full>
    requires fit { IsFit rules.now }
    requires squares { Parts.AreDropSquares rules.now (repeat_of p.now) squares }
    requires kind { kind.0 < 26 }
    requires held { Parts.has_drops rules.now (repeat_of p.now) kind ≡ true }
    ensures ok { OnOk result (TakesAll S.takes (IsDropOf rules.now (repeat_of p.now) kind.0) out.old out.new) }
    ensures err { OnErr result (TakesSome S.stops (IsDropOf rules.now (repeat_of p.now) kind.0) out.old out.new) }
{
    out.take_drops(kind, suited_squares(rules, p, squares, kind))
}

/// Gives the drops.
pub(crate) fn push_drops<S: MoveSink>(
    tables: &Tables,
    p: &Position,
    sets: &BoardSets,
    out: &mut S,
) -> Result<(), S::Full>
    requires sets { AreSets tables.now p.now.side p.now.cells sets.now }
    ensures ok { OnOk result (TakesAll S.takes (IsDrop tables.now (repeat_of p.now)) out.old out.new) }
    ensures err { OnErr result (TakesSome S.stops (IsDrop tables.now (repeat_of p.now)) out.old out.new) }
{
    let rules = tables.rules();
    if !rules.drops {
        return Ok(());
    }
    let squares = drop_squares(tables, p, sets);
    for k in 0..KINDS as u8 {
        let kind = Kind(k);
        if has_drops(rules, p, kind) {
            push_kind(rules, p, squares, kind, out)?;
        }
    }
    Ok(())
}
