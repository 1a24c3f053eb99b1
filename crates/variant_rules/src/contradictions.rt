//! Where rules contradict each other.
ghost use Rattle.std.specs.Prelude.{◌≡◌, ◌==◌, IfOk};
ghost use Rattle.std.specs.List.{list_any};
ghost use Rattle.rules_model.specs.Fit as Fit;
ghost use Rattle.rules_model.specs.Kinds as Kinds;
ghost use Rattle.variant_model.specs.Contradictions as Contradictions;
ghost use Rattle.variant_model.specs.Entry as Entry;
ghost use Rattle.variant_rules.specs.Said.{resolved_at};

use crate::kinds::held_pairs;
use crate::resolved::Resolved;
use rules_model::castling::castling_on;
use rules_model::kinds::{has_kind, masks, names, promoted_of};
use rules_model::{Kind, Memory, Rules};
use std::alloc::Global;
use variant_model::SectionFault;
use variant_options::letters::KINDS;

#[tactic(auto, using(foundation::proofs::CountLemmas::any), unfolding(rules_model::specs::Fit::has_no_piece))]
fn has_no_piece(rules: &Rules) -> bool
    ensures { result ≡ Fit.has_no_piece rules.now }
{
    for k in 0..KINDS {
        if has_kind(rules, Kind(k)) {
            return false;
        }
    }
    true
}

fn is_pawn_or_king(rules: &Rules, kind: Kind) -> bool
    ensures { result ≡ Fit.is_pawn_or_king rules.now kind }
{
    names(rules.pawn, kind) || names(rules.king, kind)
}

/// Whether a pawn becomes a pawn or a king.
#[tactic(auto, using(foundation::proofs::CountLemmas::any), unfolding(rules_model::specs::Fit::promotes_to_pawn_or_king))]
fn promotes_to_pawn_or_king(rules: &Rules) -> bool
    ensures { result ≡ Fit.promotes_to_pawn_or_king rules.now }
{
    for k in 0..KINDS {
        if masks(&rules.promotion_kinds, Kind(k)) && is_pawn_or_king(rules, Kind(k)) {
            return true;
        }
    }
    false
}

/// Whether a pawn or a king is promoted or is what a piece becomes, or a promoted kind is promoted again.
fn is_bad_promotion(rules: &Rules, kind: Kind) -> bool
    ensures { result ≡ Fit.bad_promotion rules.now kind (Kinds.promoted_of rules.now kind) }
{
    match promoted_of(rules, kind) {
        Some(promoted) => {
            is_pawn_or_king(rules, kind)
                || is_pawn_or_king(rules, promoted)
                || promoted_of(rules, promoted).is_some()
        }
        None => false,
    }
}

#[tactic(auto, using(foundation::proofs::CountLemmas::any), unfolding(rules_model::specs::Fit::chains_promotions))]
fn chains_promotions(rules: &Rules) -> bool
    ensures { result ≡ Fit.chains_promotions rules.now }
{
    for k in 0..KINDS {
        if is_bad_promotion(rules, Kind(k)) {
            return true;
        }
    }
    false
}

fn has_left(pairs: &[(Kind, Kind)], kind: Kind) -> bool
    ensures { result ≡ list_any (λ other. other.0.0 == kind.0) pairs.now }
{
    pairs.iter().any(|other| other.0.0 == kind.0)
}

/// Whether a left letter stands again.
#[tactic(auto, unfolding(variant_model::specs::Contradictions::has_left_twice))]
fn has_left_twice(pairs: &[(Kind, Kind)]) -> bool
    ensures { result ≡ Contradictions.has_left_twice pairs.now }
{
    let mut rest = pairs;
    while let [pair, behind @ ..] = rest {
        if has_left(behind, pair.0) {
            return true;
        }
        rest = behind;
    }
    false
}

fn rook_is_pawn(rules: &Rules) -> bool
    ensures { result ≡ Fit.rook_is_pawn rules.now rules.now.pawn }
{
    match rules.pawn {
        Some(pawn) => masks(&rules.castle_rooks, pawn),
        None => false,
    }
}

/// Whether there are gates with more files than letters of gates, or with castling on another rank or by pawns.
#[tactic(auto, unfolding(rules_model::specs::Fit::gates_amiss))]
fn gates_amiss(rules: &Rules) -> bool
    ensures { result ≡ Fit.gates_amiss rules.now }
{
    rules.gating
        && (rules.files > 10
            || (castling_on(rules) && (rules.castle_rank != 1 || rook_is_pawn(rules))))
}

/// The smallest number of a contradiction among rules and the pairs of promoted pieces: 1, there is no piece; 2, a pawn
/// becomes a pawn or a king; 3, the pairs name the pawn or the king, have a left letter twice, or a letter both left
/// and right; 4, hand pieces come in by gates that the variant has not; 5, gates with more than 10 files, or with
/// castling on another rank than 1 or by pawns.
#[tactic(auto, unfolding(variant_model::specs::Contradictions::contradiction))]
pub fn contradiction(rules: &Rules, pairs: &[(Kind, Kind)]) -> Option<u8>
    ensures { result ≡ Contradictions.contradiction rules.now pairs.now }
{
    if has_no_piece(rules) {
        Some(1)
    } else if promotes_to_pawn_or_king(rules) {
        Some(2)
    } else if has_left_twice(pairs) || chains_promotions(rules) {
        Some(3)
    } else if rules.gate_hand && !rules.gating {
        Some(4)
    } else if gates_amiss(rules) {
        Some(5)
    } else {
        None
    }
}

/// The contradiction among the rules of a section, where there is one.
pub fn rules_fault(
    alloc: Global,
    section: &Resolved<'_>,
    rules: &Rules,
) -> Result<Option<SectionFault>, Memory>
    requires { rules.now ≡ Entry.bare_rules (resolved_at section.now) }
    ensures { IfOk result (λ fault. fault ≡ Entry.rules_fault (resolved_at section.now)) }
{
    let pairs = held_pairs(alloc, section)?;
    Ok(match contradiction(rules, pairs.as_slice()) {
        Some(number) => Some(SectionFault::Inconsistent(number)),
        None => None,
    })
}
