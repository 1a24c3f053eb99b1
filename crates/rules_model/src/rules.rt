//! What a variant's rules are made of.
use crate::board::{KINDS, Kind, Position, Region};
use crate::moves::Value;
use arrayvec::ArrayVec;
use std::marker::Model;

/// How a term gets over the squares between.
#[derive(Clone, Copy, Default, PartialEq, Eq)]
pub enum Way {
    #[default]
    Leap,
    Lame,
    Slide,
    Hop,
    Grass,
}

/// A step and its multiples, as White sees them: to higher files and ranks.
#[derive(Clone, Copy, Default, PartialEq, Eq)]
pub struct Term {
    pub dx: i8,
    pub dy: i8,
    pub way: Way,
    /// The greatest multiple.
    pub limit: u8,
    pub quiet: bool,
    pub takes: bool,
}

/// A list of at most 64 terms.
#[derive(Clone, Drop)]
pub struct Terms {
    pub items: ArrayVec<Term, 64>,
}

impl Model for Terms {
    ghost use Rattle.std.specs.Prelude.{List};
    ghost use Rattle.rules_model.specs.declared.rules.Term.{Term};

    ghost Value = { List Term };

    ghost view = { λ t. t.items.items };
}

/// How a kind of piece moves.
#[derive(Clone, Drop)]
pub struct KindRule {
    /// The steps by which it reaches squares, as White sees them. The chess pawn has none.
    pub terms: Terms,
    /// The squares that a piece of each side may reach (`mobilityRegionWhiteX`, `mobilityRegionBlackX`). Castles, drops
    /// and gated pieces are not bound to them.
    pub mobility: [Region; 2],
    /// Whether it is the chess pawn, a kind of its own.
    pub pawn: bool,
    /// What a piece of the kind may become by `Plus` (`promotedPieceType`).
    pub promoted: Option<Kind>,
}

/// The rules of a variant, by the options of a `variants.ini`. Ranks and files count from 0, `castle_rank` and
/// `soldier_rank` from 1 as seen by the side; White has index 0. The fields are in the order of their size, the largest
/// first.
#[derive(Clone, Drop)]
pub struct Rules {
    /// The kinds of pieces by letter: None where the variant has no piece of the letter.
    pub kinds: [Option<KindRule>; KINDS],
    /// The position from which a game starts (`startFen`).
    pub start: Position,

    // Where things may happen, by side.
    /// `promotionRegionWhite`, `promotionRegionBlack`: where pieces and pawns promote.
    pub promotion: [Region; 2],
    /// `doubleStepRegionWhite`, `doubleStepRegionBlack`: from where a pawn may step twice.
    pub double_region: [Region; 2],
    /// `dropRegionWhite`, `dropRegionBlack`: where hand pieces are put.
    pub drop_region: [Region; 2],
    /// `flagRegionWhite`, `flagRegionBlack`: where the flag piece wins.
    pub flag_region: [Region; 2],

    // Which kinds an option lists, by letter.
    /// `promotionPieceTypes`: what a pawn becomes.
    pub promotion_kinds: [bool; KINDS],
    /// `castlingRookPieces`: what castles with the king.
    pub castle_rooks: [bool; KINDS],
    /// `nMoveRuleTypes`: the kinds whose moves set the counter of plies to 0.
    pub n_move_kinds: [bool; KINDS],
    /// `extinctionPieceTypes`: the kinds that may die out.
    pub extinct_kinds: [bool; KINDS],

    // How games end.
    /// `nMoveRule`: a game is drawn after so many moves of each side without a capture or a listed move; 0 for never.
    pub n_move: u16,
    /// `nFoldRule`: how often a position stands until the game ends; 0 for never.
    pub n_fold: u16,

    // The board, and the kinds that play a part of their own.
    /// `maxFile`, from 1 to 12.
    pub files: u8,
    /// `maxRank`, from 1 to 10.
    pub ranks: u8,
    /// The kind of the king: None for a variant without one.
    pub king: Option<Kind>,
    /// The kind of the chess pawn.
    pub pawn: Option<Kind>,
    /// The kind of the soldier, which goes straight forward alone until it is on `soldier_rank`.
    pub soldier: Option<Kind>,
    /// `soldierPromotionRank`, from 1 to 10, counted from the side's own first rank.
    pub soldier_rank: u8,
    /// `dropNoDoubled`: the kind that is not dropped on a file where the side has one.
    pub no_doubled: Option<Kind>,
    /// `flagPiece`: the kind that wins in the flag region.
    pub flag_kind: Option<Kind>,

    // Castling.
    /// `castlingKingFile`: the file of the king before castling.
    pub castle_king: u8,
    /// `castlingKingsideFile`: the file to which the king goes on the kingside.
    pub castle_near: u8,
    /// `castlingQueensideFile`: the file to which the king goes on the queenside.
    pub castle_far: u8,
    /// `castlingRank`, from 1 to 10, counted from the side's own first rank.
    pub castle_rank: u8,

    // Extinction: the tested side has at most so many pieces, and its opponent at least so many.
    /// `extinctionPieceCount`.
    pub extinct_most: u8,
    /// `extinctionOpponentPieceCount`.
    pub extinct_least: u8,

    // What an end is worth for the side to move, or for the side that dies out.
    /// `extinctionValue`: None where no side dies out.
    pub extinction: Option<Value>,
    /// `nFoldValue`.
    pub n_fold_value: Value,
    /// `stalemateValue`.
    pub stalemate: Value,
    /// `checkmateValue`.
    pub checkmate: Value,

    // Switches.
    /// `mandatoryPawnPromotion`.
    pub must_promote_pawn: bool,
    /// `mandatoryPiecePromotion`.
    pub must_promote_piece: bool,
    /// `doubleStep`.
    pub double_step: bool,
    /// `castling`.
    pub castling: bool,
    /// `checking`: whether a move may give check.
    pub checking: bool,
    /// `dropChecks`: whether a drop may give check.
    pub drop_checks: bool,
    /// `mustCapture`.
    pub must_capture: bool,
    /// `pieceDrops`.
    pub drops: bool,
    /// `capturesToHand`.
    pub to_hand: bool,
    /// `firstRankPawnDrops`.
    pub pawn_first: bool,
    /// `promotionZonePawnDrops`.
    pub pawn_zone: bool,
    /// `immobilityIllegal`: whether a piece must not land where it can never move again.
    pub immobile_bad: bool,
    /// `gating`: whether the pieces of the first rank have gates.
    pub gating: bool,
    /// `seirawanGating`: whether a move through a gate may put a hand piece there.
    pub gate_hand: bool,
    /// `extinctionPieceTypes = *`: whether all kinds count together.
    pub extinct_all: bool,
    /// `checkCounting`.
    pub check_counting: bool,
    /// `flyingGeneral`: whether a king attacks the other along an open file.
    pub flying: bool,
}
