//! Squares, pieces and positions.
ghost use Rattle.std.specs.Prelude.{◌≡◌, ◌<◌};
ghost use Rattle.rules_model.specs.Repeats as Repeats;
ghost use Rattle.rules_model.specs.Sides as Sides;
ghost use Rattle.rules_model.specs.Squares as Squares;

use std::marker::Model;

/// How many files the largest board has.
pub const FILES: u8 = 12;

/// How many ranks the largest board has.
pub const RANKS: u8 = 10;

/// How many squares the largest board has.
pub const SQUARES: usize = 120;

/// How many kinds of pieces there are: one for each letter.
pub const KINDS: usize = 26;

/// A square of the largest board: 12 * rank + file, both counted from 0, so below 120.
#[derive(Clone, Copy, PartialEq, Eq)]
pub struct Square(pub u8);

impl Square {
    /// The square of a file and a rank, both counted from 0: e4 is `Square::at(4, 3)`.
    pub fn at(file: u8, rank: u8) -> Square
        requires file { file < 12 }
        requires rank { rank < 10 }
        ensures is { result ≡ Squares.square_on file rank }
        ensures below { result.0 < 120 }
    {
        Square(FILES * rank + file)
    }

    /// The file of the square, counted from 0 for the file a.
    pub fn file(self) -> u8
        ensures is { result ≡ Squares.file_of self }
        ensures below { result < 12 }
    {
        self.0 % FILES
    }

    /// The rank of the square, counted from 0 for White's first rank.
    pub fn rank(self) -> u8
        ensures is { result ≡ Squares.rank_of self }
        ensures below { self.0 < 120 → result < 10 }
    {
        self.0 / FILES
    }
}

#[derive(Clone, Copy, PartialEq, Eq)]
pub enum Side {
    White,
    Black,
}

impl Side {
    /// The other side.
    pub fn other(self) -> Side
        ensures { result ≡ Sides.other self }
    {
        match self {
            Side::White => Side::Black,
            Side::Black => Side::White,
        }
    }

    /// The place of the side's part in hands, rights, gates, checks and regions.
    pub fn index(self) -> usize
        ensures is { result ≡ Sides.side_index self }
        ensures below { result < 2 }
    {
        match self {
            Side::White => 0,
            Side::Black => 1,
        }
    }

    /// Whether the two are one side.
    pub fn is(self, side: Side) -> bool
        ensures { result ≡ Sides.same_side self side }
    {
        self == side
    }
}

/// A side of the king on which it castles: towards higher files, or towards lower ones.
#[derive(Clone, Copy, PartialEq, Eq)]
pub enum Wing {
    Kingside,
    Queenside,
}

impl Wing {
    /// The place of the wing's right.
    pub fn index(self) -> usize
        ensures is { result ≡ Sides.wing_index self }
        ensures below { result < 2 }
    {
        match self {
            Wing::Kingside => 0,
            Wing::Queenside => 1,
        }
    }
}

/// A kind of piece by its letter: 0 is `a`, 25 is `z`.
#[derive(Clone, Copy, PartialEq, Eq)]
pub struct Kind(pub u8);

/// A piece that stands on a square.
#[derive(Clone, Copy, PartialEq, Eq)]
pub struct Cell {
    pub side: Side,
    pub kind: Kind,
    /// The kind from which it was promoted and to which it returns in a hand.
    pub origin: Option<Kind>,
}

/// What stands on each square of the largest board.
pub type Cells = [Option<Cell>; SQUARES];

/// A set of squares.
#[derive(Clone, Copy, PartialEq, Eq)]
pub struct Region {
    pub squares: [bool; SQUARES],
}

/// The size of a variant's board: at most 12 files and 10 ranks.
#[derive(Clone, Copy, PartialEq, Eq)]
pub struct BoardSize {
    pub files: u8,
    pub ranks: u8,
}

/// A position without its counts: what its moves depend on, and what a repetition compares.
/// White and kingside have index 0.
#[derive(Clone, Copy, PartialEq, Eq)]
pub struct Repeat {
    pub cells: [Option<Cell>; SQUARES],
    /// How many pieces of each kind a side holds.
    pub hands: [[u8; KINDS]; 2],
    /// The gates of a side's first rank, bit f for file f.
    pub gates: [u16; 2],
    /// The castling rights of a side, by wing.
    pub rights: [[bool; 2]; 2],
    /// The checks that a side has still to give.
    pub checks: [u8; 2],
    pub ep: Option<Square>,
    pub side: Side,
}

/// A list of positions that may not be entered again: one more standing would make them repetitions.
#[derive(Drop)]
pub struct Blocked {
    pub items: Vec<Repeat>,
}

impl Model for Blocked {
    ghost use Rattle.std.specs.Prelude.{List};
    ghost use Rattle.rules_model.specs.declared.board.Repeat.{Repeat};

    ghost Value = { List Repeat };

    ghost view = { λ l. l.items.items };
}

/// A position: a `Repeat`, the plies since the last capture or pawn move, and the number of the move.
#[derive(Clone, Copy, PartialEq, Eq)]
pub struct Position {
    pub cells: [Option<Cell>; SQUARES],
    pub hands: [[u8; KINDS]; 2],
    pub gates: [u16; 2],
    pub counter: u16,
    pub number: u16,
    pub rights: [[bool; 2]; 2],
    pub checks: [u8; 2],
    pub ep: Option<Square>,
    pub side: Side,
}

/// What a position must share with another to repeat it.
pub fn repeat_of(p: &Position) -> Repeat
    ensures { result ≡ Repeats.repeat_of p.now }
{
    Repeat {
        cells: p.cells,
        hands: p.hands,
        gates: p.gates,
        rights: p.rights,
        checks: p.checks,
        ep: p.ep,
        side: p.side,
    }
}

/// What stands on the square.
pub fn cell_at(cells: &Cells, at: Square) -> Option<Cell>
    ensures { result ≡ Squares.cell_at cells.now at.0 }
{
    match cells.get(at.0 as usize) {
        Some(cell) => *cell,
        None => None,
    }
}
