//! What a variant's pieces reach and attack.
ghost use Rattle.std.specs.Prelude.{◌≡◌, ℕ, ◌<◌, ◌≤◌, true, false, ◌||◌, List, Option, IfOk};
ghost use Rattle.std.specs.Bool.{OnTrue};
ghost use Rattle.foundation.specs.Count.{any_below};
ghost use Rattle.rules_model.specs.declared.board.Cell.{Cell};
ghost use Rattle.rules_model.specs.Attacks as Rule;
ghost use Rattle.rules_model.specs.Castling as Castling;
ghost use Rattle.rules_model.specs.Fit.{IsFit};
ghost use Rattle.rules_model.specs.Sides.{other};
ghost use Rattle.rules_model.specs.Squares.{cell_at};
ghost use Rattle.square_set.specs.Members.{has, OnSquares};
ghost use Rattle.move_tables.specs.declared.mode.Mode.TheVariants.{Quiet, Take};
ghost use Rattle.move_tables.specs.Occupied.{IsOccupied, AreKings};
ghost use Rattle.move_tables.specs.Reached as Reached;
ghost use Rattle.move_tables.specs.Spots as Spots;
ghost use Rattle.attack_tables.specs.Boards.{HoldsMen, OnEachBoard, OnEachWithKing};
ghost use Rattle.attack_tables.specs.Goals as Goals;
ghost use Rattle.attack_tables.specs.KindMasks.{IsKindMask};
ghost use Rattle.attack_tables.specs.Masks.{IsMask};
ghost use Rattle.attack_tables.specs.PawnMasks.{ArePawnMasks};
ghost use Rattle.attack_tables.specs.RegionSets.{IsSideRegion};
ghost use Rattle.attack_tables.specs.Sights.{IsSightOf};

use crate::alike::alike_kinds;
use crate::kind_masks::{kind_masks, kind_place_of};
use crate::masks::{masks, place_of};
use crate::pawns::{PawnMasks, pawn_masks};
use crate::regions::RegionSets;
use crate::sight::{Sight, sights};
use foundation::Memory;
use move_tables::{Mode, MoveTables, Spot, men, occupied};
use rules_model::attacks::is_own_king;
use rules_model::castling::castling_on;
use rules_model::sizes::prove_board_size;
use rules_model::{Cell, Kind, Position, Rules, Side, Square};
use square_set::{EMPTY, Set};
use std::alloc::Global;
use std::marker::Model;

/// What a variant's pieces reach and attack. In a contract the tables are the rules of which they were made.
#[derive(Drop)]
pub struct Tables {
    moves: MoveTables,
    masks: Vec<Set>,
    kind_masks: Vec<Set>,
    sights: Vec<Sight>,
    alike: Vec<bool>,
    white_pawns: PawnMasks,
    black_pawns: PawnMasks,
    flag_regions: RegionSets,
    drop_regions: RegionSets,
    castling: bool,
}

impl Model for Tables {
    ghost use Rattle.rules_model.specs.declared.rules.Rules.{Rules};
    ghost use Rattle.std.specs.Prelude.{◌≡◌};
    ghost use Rattle.rules_model.specs.Castling.{castling_on};
    ghost use Rattle.rules_model.specs.Fit.{IsFit};
    ghost use Rattle.attack_tables.specs.Goals.{AreAlike};
    ghost use Rattle.attack_tables.specs.KindMasks.{AreKindMasks};
    ghost use Rattle.attack_tables.specs.Masks.{AreMasks};
    ghost use Rattle.rules_model.specs.declared.board.Side.TheVariants.{White, Black};
    ghost use Rattle.attack_tables.specs.PawnMasks.{ArePawnMasks};
    ghost use Rattle.attack_tables.specs.RegionSets.{AreSideRegions};
    ghost use Rattle.attack_tables.specs.Sights.{AreSights};

    ghost Value = { Rules };

    ghost view = { λ t. t.moves };

    ghost invariant = { λ t.
        IsFit t.moves × AreMasks t.moves t.masks.items × AreSights t.sights.items × AreAlike t.moves t.alike.items
        × ArePawnMasks t.moves White t.white_pawns × ArePawnMasks t.moves Black t.black_pawns
        × AreSideRegions t.moves.flag_region t.flag_regions × AreSideRegions t.moves.drop_region t.drop_regions
        × (t.castling ≡ castling_on t.moves) × AreKindMasks t.moves t.kind_masks.items };
}

/// What stands on the square.
pub fn cell_on(cells: &[Option<Cell>; 120], at: u8) -> Option<Cell>
    requires { at < 120 }
    ensures { result ≡ cell_at cells.now at }
{
    cells[at as usize]
}

impl Tables {
    /// The tables of the rules, or `Memory`. They take some 1.3 MB for a spot of each side, kind, mode and square of
    /// the largest board, and for each line of a slider or hopper from such a square, as for each jump of a lame
    /// leaper, 32 bytes more: a queen takes some 120 KB, 24 queens some 3 MB.
    pub fn new(alloc: Global, rules: &Rules) -> Result<Tables, Memory>
        requires { IsFit rules.now }
        ensures { IfOk result (λ t. t ≡ rules.now) }
    {
        let moves = MoveTables::new(alloc, rules)?;
        let masks = masks(alloc, &moves)?;
        let kind_masks = kind_masks(alloc, &moves, &masks)?;
        let sights = sights(alloc)?;
        let alike = alike_kinds(alloc, rules)?;
        let white_pawns = pawn_masks(rules, Side::White);
        let black_pawns = pawn_masks(rules, Side::Black);
        let flag_regions = RegionSets::new(&rules.flag_region);
        let drop_regions = RegionSets::new(&rules.drop_region);
        let castling = castling_on(rules);
        Ok(Tables {
            moves,
            masks,
            kind_masks,
            sights,
            alike,
            white_pawns,
            black_pawns,
            flag_regions,
            drop_regions,
            castling,
        })
    }

    /// The rules of which the tables were made.
    pub fn rules(&self) -> &Rules
        ensures is { result.now ≡ self.now }
        ensures fit { IsFit self.now }
    {
        self.moves.rules()
    }

    /// Whether the variant has castling.
    pub fn castling_on(&self) -> bool
        ensures { result ≡ Castling.castling_on self.now }
    {
        self.castling
    }

    /// What the kind of the side reaches from the square in the mode, on each board.
    pub fn spot(&self, by: Side, kind: Kind, from: Square, mode: Mode) -> &Spot
        requires kind { kind.0 < 26 }
        requires from { from.0 < 120 }
        ensures { Spots.IsOfKind self.now by kind from mode result.now }
    {
        self.moves.spot(by, kind, from, mode)
    }

    /// The squares with a piece. No memory is taken.
    pub fn occupied(&self, p: &Position) -> Set
        ensures { IsOccupied result p.now.cells }
    {
        occupied(&p.cells)
    }

    /// The squares that a piece of the kind and the side reaches from the square by its terms of the mode, on a board
    /// whose occupied squares are those of the set: rule Reach, and the pawn's two diagonals to take. A soldier below
    /// its rank goes along its file alone, and no piece leaves its mobility region. No memory is taken.
    pub fn reach_set(&self, by: Side, kind: Kind, from: Square, mode: Mode, occupied: Set) -> Set
        requires kind { kind.0 < 26 }
        requires from { from.0 < 120 }
        ensures { Reached.AreReached self.now by kind from mode occupied result }
    {
        self.moves.reach_set(by, kind, from, mode, occupied)
    }

    /// Whether it is known that a piece of the kind reaches the same squares quietly and to take.
    fn is_alike(&self, kind: Kind) -> bool
        requires { kind.0 < 26 }
        ensures { OnTrue result (Goals.IsAlike self.now kind) }
    {
        self.alike[kind.0 as usize]
    }

    /// The squares that are reached quietly, where these are the ones that are reached to take.
    fn quiet_set(&self, by: Side, kind: Kind, from: Square, occupied: Set, takes: Set) -> Set
        requires kind { kind.0 < 26 }
        requires from { from.0 < 120 }
        requires takes { Reached.AreReached self.now by kind from Take occupied takes }
        ensures { Reached.AreReached self.now by kind from Quiet occupied result }
    {
        if self.is_alike(kind) {
            takes
        } else {
            self.reach_set(by, kind, from, Mode::Quiet, occupied)
        }
    }

    /// The squares to which a piece of the kind and the side goes from the square, on a board whose occupied squares
    /// are those of the set: those that are not occupied and that it reaches quietly, and those of the enemies' that
    /// it reaches to take. Of a pawn they are the enemies' squares on its two diagonals alone. No memory is taken.
    pub fn goals(&self, by: Side, kind: Kind, from: Square, occupied: Set, enemies: Set) -> Set
        requires kind { kind.0 < 26 }
        requires from { from.0 < 120 }
        ensures { Goals.AreGoals self.now by kind from occupied enemies result }
    {
        let takes = self.reach_set(by, kind, from, Mode::Take, occupied);
        let quiet = self.quiet_set(by, kind, from, occupied, takes);
        quiet.minus(occupied).or(takes.and(enemies))
    }

    /// The squares that the piece reaches from the square in the mode, on a board whose occupied squares are those of
    /// the set. A piece of a kind that no variant has reaches none.
    pub fn reach_of(&self, piece: Cell, from: Square, mode: Mode, occupied: Set) -> Set
        requires { from.0 < 120 }
        ensures { Reached.AreReached self.now piece.side piece.kind from mode occupied result }
    {
        let moves = &self.moves;
        if piece.kind.0 < 26 {
            moves.reach_set(piece.side, piece.kind, from, mode, occupied)
        } else {
            EMPTY
        }
    }

    /// The same as `reaches`, by the occupied squares.
    #[tactic(auto, unfolding(move_tables::specs::Reached::reaches_in))]
    fn reached(&self, p: &Position, occupied: Set, from: Square, mode: Mode) -> Set
        requires { IsOccupied occupied p.now.cells }
        ensures { (s : ℕ) → has result s ≡ Reached.reaches_in self.now p.now.cells from mode s }
    {
        match p.cells.get(from.0 as usize) {
            Some(Some(piece)) => self.reach_of(*piece, from, mode, occupied),
            Some(None) => EMPTY,
            None => EMPTY,
        }
    }

    /// The squares that the piece on `from` reaches. In `Mode::Quiet` they are those of its quiet terms, in
    /// `Mode::Take` those of its terms that take; a pawn reaches its two diagonals to take. It does not matter what
    /// stands on them. Where nothing stands on `from` there are none. No memory is taken.
    pub fn reaches(&self, p: &Position, from: Square, mode: Mode) -> Set
        ensures { (s : ℕ) → has result s ≡ Reached.reaches_in self.now p.now.cells from mode s }
    {
        self.reached(p, occupied(&p.cells), from, mode)
    }

    /// Whether the square is one of those that `reaches` answers, by the occupied squares, which the caller has. No
    /// memory is taken.
    pub fn reaches_square(
        &self,
        p: &Position,
        occupied: Set,
        from: Square,
        mode: Mode,
        to: Square,
    ) -> bool
        requires { IsOccupied occupied p.now.cells }
        ensures { result ≡ Reached.reaches_in self.now p.now.cells from mode to.0 }
    {
        let reached = self.reached(p, occupied, from, mode);
        to.0 < 128 && reached.has(to.0)
    }

    /// Squares outside of which no piece of the side takes on the square on any board; there may be more of them than
    /// needed.
    pub fn takers(&self, by: Side, at: Square) -> Set
        requires { at.0 < 120 }
        ensures { IsMask self.now by at.0 result }
    {
        self.masks[place_of(by, at.0)]
    }

    /// Squares outside of which no piece of the side and the kind takes on the square on any board.
    pub fn takers_of(&self, by: Side, kind: Kind, at: Square) -> Set
        requires kind { kind.0 < 26 }
        requires at { at.0 < 120 }
        ensures { IsKindMask self.now by kind.0 at.0 result }
    {
        self.kind_masks[kind_place_of(by, at.0, kind.0)]
    }

    /// The other squares of the square's file, above it and below.
    pub fn sight(&self, at: Square) -> Sight
        requires { at.0 < 120 }
        ensures { IsSightOf at.0 result }
    {
        self.sights[at.0 as usize]
    }

    /// Where the pawns of the side go from many squares at once: from the plain ones, of which no clause says how many
    /// there are.
    pub fn pawn_masks(&self, side: Side) -> &PawnMasks
        ensures { ArePawnMasks self.now side result.now }
    {
        match side {
            Side::White => &self.white_pawns,
            Side::Black => &self.black_pawns,
        }
    }

    /// Where the side's flag piece wins.
    pub fn flag_region(&self, side: Side) -> Set
        ensures { IsSideRegion self.now.flag_region side result }
    {
        self.flag_regions.of(side)
    }

    /// Where the side's hand pieces may be put.
    pub fn drop_region(&self, side: Side) -> Set
        ensures { IsSideRegion self.now.drop_region side result }
    {
        self.drop_regions.of(side)
    }

    /// Whether the kind takes on the square.
    fn takes(&self, by: Side, kind: Kind, from: u8, at: Square, occupied: Set) -> bool
        requires at { at.0 < 120 }
        requires from { from < 120 }
        ensures { (cells : List (Option Cell)) → IsOccupied occupied cells
            → result ≡ Reached.reaches_as self.now cells by kind (record { 0 = from }) Take at.0 }
    {
        let moves = &self.moves;
        if kind.0 >= 26 {
            return false;
        }
        let spot = moves.spot(by, kind, Square(from), Mode::Take);
        if !spot.within.has(at.0) {
            return false;
        }
        spot.reach(occupied).has(at.0)
    }

    /// Whether the side's piece on the square attacks the other.
    fn attacks_from(
        &self,
        cells: &[Option<Cell>; 120],
        occupied: Set,
        at: Square,
        by: Side,
        from: u8,
    ) -> bool
        requires at { at.0 < 120 }
        requires from { from < 120 }
        ensures { (board : List (Option Cell)) → IsOccupied occupied board → cell_at board from ≡ cell_at cells.now from
            → result ≡ Rule.attacks_from self.now board by at.0 from }
    {
        match cell_on(cells, from) {
            None => false,
            Some(cell) => cell.side.is(by) && self.takes(by, cell.kind, from, at, occupied),
        }
    }

    /// Whether a piece of the side attacks the square, on each board that has its pieces on the squares `occupied` and
    /// those of the side on the squares `men`, where the cells hold them. What else the cells hold does not matter:
    /// after an ordinary move these are still the cells before it. The king that flies is not asked.
    pub fn piece_attacks(
        &self,
        cells: &[Option<Cell>; 120],
        men: Set,
        occupied: Set,
        at: Square,
        by: Side,
    ) -> bool
        requires at { at.0 < 120 }
        requires men { HoldsMen by cells.now men }
        ensures { OnEachBoard by cells.now men occupied
            (λ board. result ≡ any_below (Rule.attacks_from self.now board by at.0) 120) }
    {
        prove_board_size(cells);
        let _rules = self.rules();
        let mut near = self.takers(by, at).and(men);
        while let Some(from) = near.take_first() {
            if self.attacks_from(cells, occupied, at, by, from) {
                return true;
            }
        }
        false
    }

    /// Whether a king of the side sees the square along its file, all squares between the two being empty.
    fn king_sees(
        &self,
        cells: &[Option<Cell>; 120],
        men: Set,
        occupied: Set,
        at: Square,
        by: Side,
    ) -> bool
        requires at { at.0 < 120 }
        requires men { HoldsMen by cells.now men }
        ensures { OnEachWithKing self.now by cells.now men occupied at.0
            (λ board. result ≡ any_below (Rule.king_faces self.now board by at.0) 120) }
    {
        prove_board_size(cells);
        let rules = self.rules();
        let mut seen = self.sight(at).reach(occupied).and(men);
        while let Some(from) = seen.take_first() {
            if is_own_king(rules, by, cell_on(cells, from)) {
                return true;
            }
        }
        false
    }

    /// Whether the side attacks the square of the other side's king, by a piece or by its own king where kings fly, on
    /// each board of these sets as in `piece_attacks` on which that king stands there.
    pub fn attacks_king(
        &self,
        cells: &[Option<Cell>; 120],
        men: Set,
        occupied: Set,
        at: Square,
        by: Side,
    ) -> bool
        requires at { at.0 < 120 }
        requires men { HoldsMen by cells.now men }
        ensures { OnEachWithKing self.now by cells.now men occupied at.0
            (λ board. result ≡ Rule.attacks self.now board by at.0) }
    {
        let rules = self.rules();
        if self.piece_attacks(cells, men, occupied, at, by) {
            return true;
        }
        if !rules.flying {
            return false;
        }
        self.king_sees(cells, men, occupied, at, by)
    }

    /// Whether the side attacks the square: a piece of it reaches the square by a term that takes, or a pawn of it has
    /// the square diagonally one step forward, or kings fly and its king faces the other side's king on the square
    /// along an open file. Otherwise it does not matter what stands on the square. No memory is taken.
    pub fn attacked(&self, p: &Position, at: Square, by: Side) -> bool
        ensures { result ≡ Rule.attacks self.now p.now.cells by at.0 }
    {
        prove_board_size(&p.cells);
        let rules = self.rules();
        if at.0 >= 120 {
            return false;
        }
        let men = men(&p.cells, by);
        let occupied = occupied(&p.cells);
        if is_own_king(rules, by.other(), cell_on(&p.cells, at.0)) {
            self.attacks_king(&p.cells, men, occupied, at, by)
        } else {
            self.piece_attacks(&p.cells, men, occupied, at, by)
        }
    }

    /// Whether the side's king stands attacked, on each board of these sets as in `piece_attacks`, `men` being those of
    /// the other side, on which its kings are on these squares.
    pub fn king_attacked_by(
        &self,
        cells: &[Option<Cell>; 120],
        kings: Set,
        men: Set,
        occupied: Set,
        side: Side,
    ) -> bool
        requires kings { OnSquares kings }
        requires men { HoldsMen (other side) cells.now men }
        ensures { OnEachBoard (other side) cells.now men occupied
            (λ board. AreKings self.now side board kings → result ≡ Rule.king_attacked self.now board side) }
    {
        let by = side.other();
        let mut rest = kings;
        while let Some(at) = rest.take_first() {
            if self.attacks_king(cells, men, occupied, Square(at), by) {
                return true;
            }
        }
        false
    }
}
