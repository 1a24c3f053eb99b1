//! The kinds of values, and what some of them say.

/// What values an option may have.
#[derive(Clone, Copy, PartialEq, Eq)]
pub enum ValueKind {
    /// `true` or `false`.
    Flag,
    /// A number from the first to the second.
    Number(u16, u16),
    /// 0, or a number from 2 to 100.
    Fold,
    /// A letter from a to l, or a number from 1 to 12.
    File,
    /// `win`, `loss` or `draw`.
    Result,
    /// One of these, or `none`.
    ResultOrNone,
    /// A piece's letter, or `-`.
    Letter,
    /// Letters of pieces with or without spaces, or `-`.
    Letters,
    /// Letters, or `*`.
    LettersOrAll,
    /// Pairs of letters as `p:g l:g`, or `-`.
    Pairs,
    /// Squares as `d4` and whole ranks as `*8`, or `-`.
    Region,
    /// Any text: a FEN, which is judged when the rules are known.
    Position,
}

/// A part of a region of the largest board.
#[derive(Clone, Copy, PartialEq, Eq)]
pub enum Area {
    /// 12 * rank + file.
    Square(u8),
    /// A rank, counted from 0.
    Rank(u8),
}

/// The kinds that an option lists.
#[derive(Clone, Copy, PartialEq, Eq)]
pub enum Listed {
    /// All kinds together.
    All,
    /// Those of the mask.
    Only([bool; 26]),
}
