//! The candidates: the moves that meet the rules of movement, before the safety of kings and the rules of choice are
//! looked at.
ghost use Rattle.std.specs.Prelude.{◌≡◌, true, OnOk, OnErr, length, slice_index_or};
ghost use Rattle.rules_model.specs.Regions.{no_region};
ghost use Rattle.rules_model.specs.Sides.{side_index};
ghost use Rattle.rules_model.specs.declared.moves.Move.{Move};
ghost use Rattle.rules_model.specs.Moves.{IsFitMove};
ghost use Rattle.piece_moves.specs.Taking.{TakesAll, TakesSome};
ghost use Rattle.rules_model.specs.Candidates as Candidates;
ghost use Rattle.rules_model.specs.Fit.{IsFit};
ghost use Rattle.rules_model.specs.Repeats.{repeat_of};
ghost use Rattle.board_sets.specs.Sets.{AreSets};
ghost use Rattle.legality.specs.Chosen.{FitCandidates};

use attack_tables::Tables;
use board_sets::BoardSets;
use piece_moves::MoveSink;
use rules_model::sizes::{prove_position_sizes, prove_region_size};
use rules_model::{KINDS, Move, Position, Region, Rules, Side};

/// Gives the sink the candidates, each once and in no special order: those for which `is_candidate` answers yes.
pub(crate) fn push_candidates<S: MoveSink>(
    tables: &Tables,
    p: &Position,
    sets: &BoardSets,
    out: &mut S,
) -> Result<(), S::Full>
    requires { AreSets tables.now p.now.side p.now.cells sets.now }
    ensures ok { OnOk result (TakesAll S.takes (FitCandidates tables.now (repeat_of p.now)) out.old out.new) }
    ensures err { OnErr result (TakesSome S.stops (FitCandidates tables.now (repeat_of p.now)) out.old out.new) }
{
    let rules = tables.rules();
    piece_moves::push_moves(rules, tables, p, sets, out)?;
    special_moves::push_moves(rules, tables, p, sets, out)
}

/// Whether the move is a candidate.
#[tactic(auto, unfolding(rules_model::specs::Candidates::is_candidate))]
pub(crate) fn is_candidate(tables: &Tables, p: &Position, sets: &BoardSets, m: &Move) -> bool
    requires { AreSets tables.now p.now.side p.now.cells sets.now }
    ensures { result ≡ Candidates.is_candidate tables.now (repeat_of p.now) m.now }
{
    let rules = tables.rules();
    piece_moves::is_candidate(rules, tables, p, sets, m)
        || special_moves::is_candidate(rules, tables, p, sets, m)
}

/// A mask has a place for each letter.
fn prove_mask_size(mask: &[bool; KINDS])
    ensures { length mask.now ≡ 26 }
{
    let _first = mask[0];
}

/// The side's region has a place for each square.
fn prove_region_sizes(regions: &[Region; 2], side: Side)
    ensures { length (slice_index_or regions.now (side_index side) no_region).squares ≡ 120 }
{
    prove_region_size(&regions[side.index()]);
}

/// The candidates are moves on the largest board.
pub(crate) fn prove_candidates_fit(rules: &Rules, p: &Position)
    requires { IsFit rules.now }
    ensures { (m : Move) → Candidates.is_candidate rules.now (repeat_of p.now) m ≡ true → IsFitMove m }
{
    prove_mask_size(&rules.promotion_kinds);
    prove_region_sizes(&rules.drop_region, p.side);
    prove_position_sizes(p);
}
