//! The sets of a board's pieces, and those of a board that differs on a few squares.
ghost use Rattle.std.specs.Prelude.{◌≡◌, ℕ, ◌<◌, true};
ghost use Rattle.square_set.specs.Members.{has};
ghost use Rattle.next_position.specs.Puts.{IsOnBoard};
ghost use Rattle.board_sets.specs.Sets.{AreSets, AreSetsAfter, AreSetsPut, AreTurned, IsOccupiedBy, SetsStayOnBoard};
ghost use Rattle.board_sets.specs.Sets.{HoldsPawns, HoldsPieces};
ghost use Rattle.board_sets.specs.Written.{AreMinus, AreWith, AreWithEnemy, AreWithOwn, IsWithIf, IsWritten};

use next_position::OnePut;
use rules_model::kinds::names;
use rules_model::sizes::prove_board_size;
use rules_model::{Cell, Cells, Kind, Rules, Side, Square, cell_at};
use square_set::{BOARD, EMPTY, Set};

/// The squares of the pieces on a board, by whose move it is.
#[derive(Clone, Copy, PartialEq, Eq)]
pub struct BoardSets {
    /// Those of the side to move.
    pub own: Set,
    /// Those of the other side.
    pub enemies: Set,
    /// The kings of the side to move.
    pub kings: Set,
    /// The kings of the other side.
    pub enemy_kings: Set,
    /// The pawns of both sides.
    pub pawns: Set,
}

const NONE: BoardSets = BoardSets {
    own: EMPTY,
    enemies: EMPTY,
    kings: EMPTY,
    enemy_kings: EMPTY,
    pawns: EMPTY,
};

/// The set, with the square besides where that is wanted.
fn with_if(set: Set, at: u8, wanted: bool) -> Set
    requires { at < 128 }
    ensures { IsWithIf set at wanted result }
{
    if wanted { set.with(at) } else { set }
}

/// The two squares, or the one, that are written.
fn squares_of(put: OnePut) -> Set
    requires { IsOnBoard put }
    ensures { IsWritten put result }
{
    let entered = EMPTY.with(put.at.0);
    match put.left {
        None => entered,
        Some(from) => entered.with(from.0),
    }
}

/// The sets of a board.
pub fn sets_of(rules: &Rules, cells: &Cells, side: Side) -> BoardSets
    ensures { AreSets rules.now side cells.now result }
{
    prove_board_size(cells);
    NONE.after(rules, side, cells, BOARD)
}

impl BoardSets {
    /// The squares with a piece.
    pub fn occupied(&self) -> Set
        ensures { IsOccupiedBy self.now result }
    {
        self.own.or(self.enemies)
    }

    /// The squares of the own pieces but the pawns.
    pub fn own_pieces(&self) -> Set
        ensures are { HoldsPieces self.now result }
        ensures within { (s : ℕ) → has result s ≡ true → has self.now.own s ≡ true }
    {
        self.own.minus(self.pawns)
    }

    /// The squares of the own pawns.
    pub fn own_pawns(&self) -> Set
        ensures are { HoldsPawns self.now result }
        ensures within { (s : ℕ) → has result s ≡ true → has self.now.own s ≡ true }
    {
        self.own.and(self.pawns)
    }

    /// The sets of the same board for the other side.
    pub fn turned(self) -> BoardSets
        ensures { AreTurned self result }
    {
        BoardSets {
            own: self.enemies,
            enemies: self.own,
            kings: self.enemy_kings,
            enemy_kings: self.kings,
            pawns: self.pawns,
        }
    }

    /// The sets without the squares.
    fn minus(&self, squares: Set) -> BoardSets
        ensures { AreMinus self.now squares result }
    {
        BoardSets {
            own: self.own.minus(squares),
            enemies: self.enemies.minus(squares),
            kings: self.kings.minus(squares),
            enemy_kings: self.enemy_kings.minus(squares),
            pawns: self.pawns.minus(squares),
        }
    }

    /// Puts the square into the sets to which an own piece belongs.
    fn add_own(&mut self, rules: &Rules, at: u8, kind: Kind)
        requires { at < 128 }
        ensures { AreWithOwn rules.now self.old at kind self.new }
    {
        self.own = self.own.with(at);
        self.kings = with_if(self.kings, at, names(rules.king, kind));
        self.pawns = with_if(self.pawns, at, names(rules.pawn, kind));
    }

    /// Puts the square into the sets to which a piece of the other side belongs.
    fn add_enemy(&mut self, rules: &Rules, at: u8, kind: Kind)
        requires { at < 128 }
        ensures { AreWithEnemy rules.now self.old at kind self.new }
    {
        self.enemies = self.enemies.with(at);
        self.enemy_kings = with_if(self.enemy_kings, at, names(rules.king, kind));
        self.pawns = with_if(self.pawns, at, names(rules.pawn, kind));
    }

    /// Puts the square into the sets to which what stands there belongs.
    fn add(&mut self, rules: &Rules, side: Side, at: u8, cell: Option<Cell>)
        requires { at < 128 }
        ensures { AreWith rules.now side self.old at cell self.new }
    {
        if let Some(piece) = cell {
            if piece.side.is(side) {
                self.add_own(rules, at, piece.kind);
            } else {
                self.add_enemy(rules, at, piece.kind);
            }
        }
    }

    /// The sets of the second board, from those of a first one that agrees with it outside the touched squares. The
    /// first one is not looked at, and of the second no other square.
    pub fn after(&self, rules: &Rules, side: Side, next: &Cells, touched: Set) -> BoardSets
        ensures { AreSetsAfter rules.now side touched next.now self.now result }
    {
        let mut sets = self.minus(touched);
        let mut left = touched;
        while let Some(at) = left.take_first() {
            sets.add(rules, side, at, cell_at(next, Square(at)));
        }
        sets
    }

    /// The sets once one square is left and something is put on another.
    pub fn put(&self, rules: &Rules, side: Side, put: OnePut) -> BoardSets
        requires { IsOnBoard put }
        ensures { AreSetsPut rules.now side put self.now result }
    {
        let mut sets = self.minus(squares_of(put));
        sets.add(rules, side, put.at.0, put.cell);
        sets
    }
}

/// The squares of the sets are squares of the largest board.
pub fn sets_are_on_board()
    ensures { SetsStayOnBoard }
{}
