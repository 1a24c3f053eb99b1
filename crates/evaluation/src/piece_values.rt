//! What kinds and squares are worth.
ghost use Rattle.std.specs.Prelude.{◌≡◌, ◌≤◌, ◌<◌, sum_by};
ghost use Rattle.rules_model.specs.Fit.{IsFit};
ghost use Rattle.rules_model.specs.Kinds as Kinds;
ghost use Rattle.evaluation.specs.Evaluation as Evaluation;
ghost use Rattle.evaluation.specs.PieceValues.{AreFew, AreKindWorths, AreSquareWorths};

use rules_model::kinds::names;
use rules_model::{KINDS, Kind, Rules, SQUARES, Square, Term, Terms, Way};
use std::marker::Model;
use std::snapshot::Snapshot;

/// What each kind of a variant and each square of its board is worth, made once. In a contract they are the rules of
/// which they were made.
#[derive(Drop)]
pub struct PieceValues {
    kinds: [u16; KINDS],
    squares: [u16; SQUARES],
    king: Option<Kind>,
    rules: Snapshot<Rules>,
}

impl Model for PieceValues {
    ghost use Rattle.rules_model.specs.declared.rules.Rules.{Rules};
    ghost use Rattle.evaluation.specs.PieceValues.{AreWorths};

    ghost Value = { Rules };

    ghost view = { λ w. w.rules.value };

    ghost invariant = { λ w. AreWorths w.rules.value w.kinds w.squares w.king };
}

/// What a kind without a term is worth.
const NO_TERM: u16 = 20;

const PAWN: u16 = 100;

/// The worth of a way, by whether its term goes along a rank or a file, and by its greatest multiple.
fn way_worth(way: Way, straight: bool, limit: u8) -> u16
    ensures is { result ≡ Evaluation.way_worth way straight limit }
    ensures few { result ≤ 120 }
{
    match way {
        Way::Leap => 35,
        Way::Lame => 25,
        Way::Slide => {
            let more = u16::from(limit.saturating_sub(1).min(5));
            if straight {
                35 + 17 * more
            } else {
                35 + 8 * more
            }
        }
        Way::Hop => 60,
        Way::Grass => 60,
    }
}

#[tactic(auto, unfolding(crate::specs::Evaluation::term_worth))]
fn term_worth(term: &Term) -> u16
    ensures is { result ≡ Evaluation.term_worth term.now }
    ensures few { result ≤ 120 }
{
    let straight = term.dx == 0 || term.dy == 0;
    let whole = way_worth(term.way, straight, term.limit);
    if term.quiet && term.takes {
        whole
    } else {
        whole / 2
    }
}

fn terms_worth(terms: &Terms) -> u16
    ensures is { result ≡ sum_by Evaluation.term_worth terms.now }
    ensures few { result ≤ 7680 }
{
    let mut worth = 0;
    for term in terms.items.as_slice() {
        worth += term_worth(term);
    }
    worth
}

/// What the kind's terms are worth, where the variant has the kind.
fn rule_worth(rules: &Rules, kind: Kind) -> u16
    ensures is { result ≡ sum_by Evaluation.term_worth (Kinds.terms_of rules.now kind) }
    ensures few { result ≤ 7680 }
{
    match rules.kinds.get(kind.0 as usize) {
        Some(Some(rule)) => terms_worth(&rule.terms),
        Some(None) => 0,
        None => 0,
    }
}

#[tactic(auto, unfolding(crate::specs::Evaluation::kind_worth))]
fn kind_worth(rules: &Rules, kind: Kind) -> u16
    ensures is { result ≡ Evaluation.kind_worth rules.now kind }
    ensures few { result ≤ 7700 }
{
    if names(rules.king, kind) {
        0
    } else if names(rules.pawn, kind) {
        PAWN
    } else {
        NO_TERM + rule_worth(rules, kind)
    }
}

fn from_edge(size: u8, at: u8) -> u8
    ensures is { result ≡ Evaluation.from_edge size at }
    ensures few { result ≤ at }
{
    at.min(size.saturating_sub(1).saturating_sub(at))
}

#[tactic(auto, unfolding(crate::specs::Evaluation::square_worth))]
fn square_worth(rules: &Rules, at: Square) -> u16
    requires { at.0 < 120 }
    ensures is { result ≡ Evaluation.square_worth rules.now at }
    ensures few { result ≤ 80 }
{
    let file = u16::from(from_edge(rules.files, at.file()));
    let rank = u16::from(from_edge(rules.ranks, at.rank()));
    4 * (file + rank)
}

fn kind_worths(rules: &Rules) -> [u16; KINDS]
    ensures { AreKindWorths rules.now result 26 }
{
    let mut kinds = [0; KINDS];
    for k in 0..KINDS {
        kinds[k] = kind_worth(rules, Kind(k as u8));
    }
    kinds
}

fn square_worths(rules: &Rules) -> [u16; SQUARES]
    ensures { AreSquareWorths rules.now result 120 }
{
    let mut squares = [0; SQUARES];
    for s in 0..SQUARES {
        squares[s] = square_worth(rules, Square(s as u8));
    }
    squares
}

impl PieceValues {
    /// What the kinds and squares are worth by these rules. No memory is taken.
    pub fn of(rules: &Rules) -> PieceValues
        requires { IsFit rules.now }
        ensures { result ≡ rules.now }
    {
        PieceValues {
            kinds: kind_worths(rules),
            squares: square_worths(rules),
            king: rules.king,
            rules: Snapshot::of(rules),
        }
    }

    /// No kind and no piece is worth much.
    pub(crate) fn prove_few(&self)
        ensures { AreFew self.now }
    {
        let _kinds = &self.kinds;
    }

    /// What a piece of the kind is worth in a hand: 0 for the king, and 7,700 at most.
    pub fn kind(&self, kind: Kind) -> u16
        ensures is { result ≡ Evaluation.kind_worth self.now kind }
        ensures few { result ≤ 7700 }
    {
        if (kind.0 as usize) < KINDS {
            self.kinds[kind.0 as usize]
        } else {
            NO_TERM
        }
    }

    /// What a piece of the kind is worth on the square: 0 for the king, and 7,780 at most.
    #[tactic(auto, unfolding(crate::specs::Evaluation::worth_on))]
    pub fn on(&self, kind: Kind, at: Square) -> u16
        requires { at.0 < 120 }
        ensures is { result ≡ Evaluation.worth_on self.now kind at.0 }
        ensures few { result ≤ 7780 }
    {
        if names(self.king, kind) {
            0
        } else {
            self.kind(kind) + self.squares[at.0 as usize]
        }
    }
}
