//! What the rules say of kinds, regions and hands.
ghost use Rattle.std.specs.Prelude.{◌≡◌, ◌<◌, slice_index};
ghost use Rattle.std.specs.List.{list_any};
ghost use Rattle.rules_model.specs.Fit.{IsFit};
ghost use Rattle.rules_model.specs.Hands as Hands;
ghost use Rattle.rules_model.specs.Kinds as Kinds;
ghost use Rattle.rules_model.specs.Regions as Regions;
ghost use Rattle.rules_model.specs.Sides as Sides;

use crate::board::{BoardSize, KINDS, Kind, Region, Side};
use crate::rules::{KindRule, Rules};

/// The size of the variant's board.
pub fn board_of(rules: &Rules) -> BoardSize
    ensures { result ≡ Kinds.board_of rules.now }
{
    BoardSize {
        files: rules.files,
        ranks: rules.ranks,
    }
}

/// Whether the kind is the one that is named.
pub fn names(named: Option<Kind>, kind: Kind) -> bool
    ensures { result ≡ Kinds.names named kind }
{
    match named {
        None => false,
        Some(named) => named.0 == kind.0,
    }
}

/// Whether a mask of kinds holds the kind.
pub fn masks(mask: &[bool; KINDS], kind: Kind) -> bool
    ensures { result ≡ Kinds.masks mask.now kind }
{
    if (kind.0 as usize) < KINDS {
        mask[kind.0 as usize]
    } else {
        false
    }
}

/// Whether some entry of a mask is set.
pub fn names_any(mask: &[bool; KINDS]) -> bool
    ensures { result ≡ list_any (λ b. b) mask.now }
{
    mask.iter().any(|b| *b)
}

/// Whether the variant has the kind.
pub fn has_kind(rules: &Rules, kind: Kind) -> bool
    ensures { result ≡ Kinds.has_kind rules.now kind }
{
    match rules.kinds.get(kind.0 as usize) {
        Some(Some(_)) => true,
        Some(None) => false,
        None => false,
    }
}

/// What a piece of the kind becomes by `Plus`.
pub fn promoted_of(rules: &Rules, kind: Kind) -> Option<Kind>
    ensures { result ≡ Kinds.promoted_of rules.now kind }
{
    match rules.kinds.get(kind.0 as usize) {
        Some(Some(rule)) => rule.promoted,
        Some(None) => None,
        None => None,
    }
}

/// The rank that is nearest to the side, counted from 0.
pub fn first_rank(rules: &Rules, side: Side) -> u8
    requires { IsFit rules.now }
    ensures is { result ≡ Regions.first_rank rules.now side }
    ensures below { result < 10 }
{
    match side {
        Side::White => 0,
        Side::Black => rules.ranks - 1,
    }
}

/// Whether the square lies in the side's region.
pub fn in_region(regions: &[Region; 2], side: Side, at: u8) -> bool
    ensures { result ≡ Regions.in_region regions.now side at }
{
    let region = &regions[side.index()];
    match region.squares.get(at as usize) {
        Some(lies) => *lies,
        None => false,
    }
}

fn count_of(hand: &[u8; KINDS], kind: Kind) -> u8
    ensures { result ≡ slice_index hand.now kind.0 }
{
    if (kind.0 as usize) < KINDS {
        hand[kind.0 as usize]
    } else {
        0
    }
}

/// How many pieces of the kind the side holds in its hand.
pub fn in_hand(hands: &[[u8; KINDS]; 2], side: Side, kind: Kind) -> u8
    ensures { result ≡ Hands.in_hand hands.now side kind }
{
    count_of(&hands[side.index()], kind)
}
