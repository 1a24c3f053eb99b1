//! The families of positions: a variant each, and the pieces that its positions are made of.

/// The variants below those that are built in: chess on five files and ranks, and what its positions are tried by.
pub const VARIANTS: &[u8] = b"\
    [corner:chess]\n\
    maxRank = 5\n\
    maxFile = 5\n\
    promotionRegionWhite = *5\n\
    doubleStep = false\n\
    castling = false\n\
    startFen = k4/5/5/5/4K w - - 0 1\n\
    [folds:corner]\n\
    nFoldRule = 2\n\
    [counts:corner]\n\
    nMoveRule = 4\n\
    [stuck:corner]\n\
    stalemateValue = loss\n\
    [hill:corner]\n\
    flagPiece = k\n\
    flagRegionWhite = c3\n\
    flagRegionBlack = c3\n\
    [checks:corner]\n\
    checkCounting = true\n\
    startFen = k4/5/5/5/4K w - - 2+2 0 1\n\
    [house:corner]\n\
    pieceDrops = true\n\
    capturesToHand = true\n\
    startFen = k4/5/5/5/4K[] w - - 0 1\n\
    [knights:corner]\n\
    extinctionValue = loss\n\
    extinctionPieceTypes = n\n\
    startFen = kn3/5/5/5/3NK w - - 0 1\n\
    [tight:corner]\n\
    nFoldRule = 2\n\
    nMoveRule = 5\n\
    startFen = 5/1P1K1/5/1k3/5 w - - 6 30\n\
    [takers:corner]\n\
    king = -\n\
    commoner = k\n\
    mustCapture = true\n\
    stalemateValue = win\n\
    extinctionValue = win\n\
    extinctionPieceTypes = *\n\
    promotionPieceTypes = nbrqk\n\
    startFen = k4/5/5/5/4K w - - 0 1";

/// What the positions of a family have, and what is asked of them.
#[derive(Clone, Copy)]
pub struct Family {
    /// The name of the variant.
    pub name: &'static str,
    /// The pieces that each side has.
    pub both: &'static [u8],
    /// The pieces of which there are more.
    pub more: &'static [u8],
    /// How many more there are at most.
    pub count: u8,
    /// The pieces of which each side may hold one in its hand.
    pub held: &'static [u8],
    /// A number above the counter of plies.
    pub counters: u8,
    /// Within how many moves wins are looked for.
    pub most: u16,
}

/// A family of positions of up to six pieces without hands, at the counter 0, for wins within two moves.
const fn plain(name: &'static str, both: &'static [u8], more: &'static [u8]) -> Family {
    Family {
        name,
        both,
        more,
        count: 4,
        held: b"",
        counters: 1,
        most: 2,
    }
}

/// A family of positions of up to five pieces, for wins within three moves.
const fn longer(name: &'static str, both: &'static [u8], more: &'static [u8]) -> Family {
    Family {
        count: 3,
        most: 3,
        ..plain(name, both, more)
    }
}

/// The families, in the order in which they are tried.
pub fn families() -> [Family; 10] {
    [
        plain("chess", b"k", b"qqrrp"),
        longer("corner", b"k", b"qrrpp"),
        longer("folds", b"k", b"qrrpp"),
        Family {
            counters: 8,
            ..longer("counts", b"k", b"qrrpp")
        },
        longer("stuck", b"k", b"qrnpp"),
        longer("hill", b"k", b"rbnpp"),
        plain("checks", b"k", b"rbnpp"),
        Family {
            count: 3,
            held: b"rbnp",
            ..plain("house", b"k", b"qrbnp")
        },
        plain("knights", b"kn", b"rbnpp"),
        longer("takers", b"k", b"rbnpk"),
    ]
}
