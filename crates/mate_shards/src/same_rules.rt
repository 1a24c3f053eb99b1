//! Whether two variants have the same rules.
ghost use Rattle.std.specs.Prelude.{◌≡◌, ◌↔◌, IsTrue};
ghost use Rattle.rules_model.specs.Repeats as Repeats;
ghost use Rattle.mate_shards.specs.SameRules.{SameDrops, SameEnds, SameLists, SameMoves};
ghost use Rattle.mate_shards.specs.SameRules.{SameNamed, SamePlaces, SameSizes};

use rules_model::{Kind, KindRule, Position, Region, Rules, Term, repeats};

/// Whether the two are the same rules.
pub fn are_same_rules(a: &Rules, b: &Rules) -> bool
    ensures { IsTrue result ↔ (a.now ≡ b.now) }
{
    are_same_pieces(a, b)
        && are_same_places(a, b)
        && are_same_lists(a, b)
        && are_same_sizes(a, b)
        && are_same_named(a, b)
        && are_same_ends(a, b)
        && are_same_moves(a, b)
        && are_same_drops(a, b)
}

fn are_same_pieces(a: &Rules, b: &Rules) -> bool
    ensures { IsTrue result ↔ ((a.now.kinds ≡ b.now.kinds) × (a.now.start ≡ b.now.start)) }
{
    are_same_kinds(&a.kinds, &b.kinds) && is_same_position(&a.start, &b.start)
}

fn are_same_places(a: &Rules, b: &Rules) -> bool
    ensures { IsTrue result ↔ SamePlaces a.now b.now }
{
    are_same_regions(&a.promotion, &b.promotion)
        && are_same_regions(&a.double_region, &b.double_region)
        && are_same_regions(&a.drop_region, &b.drop_region)
        && are_same_regions(&a.flag_region, &b.flag_region)
}

fn are_same_lists(a: &Rules, b: &Rules) -> bool
    ensures { IsTrue result ↔ SameLists a.now b.now }
{
    are_same_flags(&a.promotion_kinds, &b.promotion_kinds)
        && are_same_flags(&a.castle_rooks, &b.castle_rooks)
        && are_same_flags(&a.n_move_kinds, &b.n_move_kinds)
        && are_same_flags(&a.extinct_kinds, &b.extinct_kinds)
}

fn are_same_sizes(a: &Rules, b: &Rules) -> bool
    ensures { IsTrue result ↔ SameSizes a.now b.now }
{
    a.n_move == b.n_move
        && a.n_fold == b.n_fold
        && a.files == b.files
        && a.ranks == b.ranks
        && a.castle_king == b.castle_king
        && a.castle_near == b.castle_near
        && a.castle_far == b.castle_far
        && a.castle_rank == b.castle_rank
}

fn are_same_named(a: &Rules, b: &Rules) -> bool
    ensures { IsTrue result ↔ SameNamed a.now b.now }
{
    a.king == b.king
        && a.pawn == b.pawn
        && a.soldier == b.soldier
        && a.soldier_rank == b.soldier_rank
        && a.no_doubled == b.no_doubled
        && a.flag_kind == b.flag_kind
}

fn are_same_ends(a: &Rules, b: &Rules) -> bool
    ensures { IsTrue result ↔ SameEnds a.now b.now }
{
    a.extinct_most == b.extinct_most
        && a.extinct_least == b.extinct_least
        && a.extinction == b.extinction
        && a.n_fold_value == b.n_fold_value
        && a.stalemate == b.stalemate
        && a.checkmate == b.checkmate
        && a.extinct_all == b.extinct_all
        && a.check_counting == b.check_counting
}

fn are_same_moves(a: &Rules, b: &Rules) -> bool
    ensures { IsTrue result ↔ SameMoves a.now b.now }
{
    a.must_promote_pawn == b.must_promote_pawn
        && a.must_promote_piece == b.must_promote_piece
        && a.double_step == b.double_step
        && a.castling == b.castling
        && a.checking == b.checking
        && a.must_capture == b.must_capture
        && a.gating == b.gating
        && a.gate_hand == b.gate_hand
}

fn are_same_drops(a: &Rules, b: &Rules) -> bool
    ensures { IsTrue result ↔ SameDrops a.now b.now }
{
    a.drop_checks == b.drop_checks
        && a.drops == b.drops
        && a.to_hand == b.to_hand
        && a.pawn_first == b.pawn_first
        && a.pawn_zone == b.pawn_zone
        && a.immobile_bad == b.immobile_bad
        && a.flying == b.flying
}

fn are_same_kinds(a: &[Option<KindRule>; 26], b: &[Option<KindRule>; 26]) -> bool
    ensures { IsTrue result ↔ (a.now ≡ b.now) }
{
    for k in 0..26 {
        if !is_same_kind(&a[k], &b[k]) {
            return false;
        }
    }
    true
}

fn is_same_kind(a: &Option<KindRule>, b: &Option<KindRule>) -> bool
    ensures { IsTrue result ↔ (a.now ≡ b.now) }
{
    match (a, b) {
        (None, None) => true,
        (Some(a), Some(b)) => is_same_rule(a, b),
        _ => false,
    }
}

fn is_same_rule(a: &KindRule, b: &KindRule) -> bool
    ensures { IsTrue result ↔ (a.now ≡ b.now) }
{
    are_same_terms(a.terms.items.as_slice(), b.terms.items.as_slice())
        && are_same_regions(&a.mobility, &b.mobility)
        && a.pawn == b.pawn
        && are_same_names(a.promoted, b.promoted)
}

fn are_same_terms(a: &[Term], b: &[Term]) -> bool
    ensures { IsTrue result ↔ (a.now ≡ b.now) }
{
    if a.len() != b.len() {
        return false;
    }
    for k in 0..a.len() {
        if !is_same_term(&a[k], &b[k]) {
            return false;
        }
    }
    true
}

fn is_same_term(a: &Term, b: &Term) -> bool
    ensures { IsTrue result ↔ (a.now ≡ b.now) }
{
    a.dx == b.dx
        && a.dy == b.dy
        && a.way == b.way
        && a.limit == b.limit
        && a.quiet == b.quiet
        && a.takes == b.takes
}

fn are_same_names(a: Option<Kind>, b: Option<Kind>) -> bool
    ensures { IsTrue result ↔ (a ≡ b) }
{
    a == b
}

fn is_same_position(a: &Position, b: &Position) -> bool
    ensures { IsTrue result ↔ (a.now ≡ b.now) }
{
    is_same_repeat(a, b) && are_same_counts(a, b)
}

fn is_same_repeat(a: &Position, b: &Position) -> bool
    ensures { IsTrue result ↔ (Repeats.repeat_of a.now ≡ Repeats.repeat_of b.now) }
{
    repeats(a, b)
}

fn are_same_counts(a: &Position, b: &Position) -> bool
    ensures { IsTrue result ↔ ((a.now.counter ≡ b.now.counter) × (a.now.number ≡ b.now.number)) }
{
    a.counter == b.counter && a.number == b.number
}

fn are_same_regions(a: &[Region; 2], b: &[Region; 2]) -> bool
    ensures { IsTrue result ↔ (a.now ≡ b.now) }
{
    is_same_region(&a[0], &b[0]) && is_same_region(&a[1], &b[1])
}

fn is_same_region(a: &Region, b: &Region) -> bool
    ensures { IsTrue result ↔ (a.now ≡ b.now) }
{
    a == b
}

fn are_same_flags(a: &[bool; 26], b: &[bool; 26]) -> bool
    ensures { IsTrue result ↔ (a.now ≡ b.now) }
{
    a == b
}
