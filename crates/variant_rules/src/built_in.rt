//! The variants that are built in.
ghost use Rattle.std.specs.Prelude.{◌≡◌, IfOk};
ghost use Rattle.variant_ini.specs.FileLines.{AreFileLines};
ghost use Rattle.variant_model.specs.Builtin.{builtin_sections, builtin_text};

use foundation::Memory;
use std::alloc::Global;
use variant_ini::Sections;

/// The text of the variants file that is built in.
const BUILTIN: &[u8] = b"\
    [chess]\n\
    pawn = p\n\
    knight = n\n\
    bishop = b\n\
    rook = r\n\
    queen = q\n\
    king = k\n\
    promotionPieceTypes = nbrq\n\
    startFen = rnbqkbnr/pppppppp/8/8/8/8/PPPPPPPP/RNBQKBNR w KQkq - 0 1\n\
    [crazyhouse:chess]\n\
    pieceDrops = true\n\
    capturesToHand = true\n\
    startFen = rnbqkbnr/pppppppp/8/8/8/8/PPPPPPPP/RNBQKBNR[] w KQkq - 0 1\n\
    [3check:chess]\n\
    checkCounting = true\n\
    startFen = rnbqkbnr/pppppppp/8/8/8/8/PPPPPPPP/RNBQKBNR w KQkq - 3+3 0 1\n\
    [kingofthehill:chess]\n\
    flagPiece = k\n\
    flagRegionWhite = d4 e4 d5 e5\n\
    flagRegionBlack = d4 e4 d5 e5\n\
    [antichess:chess]\n\
    king = -\n\
    commoner = k\n\
    castling = false\n\
    mustCapture = true\n\
    stalemateValue = win\n\
    extinctionValue = win\n\
    extinctionPieceTypes = *\n\
    promotionPieceTypes = nbrqk\n\
    startFen = rnbqkbnr/pppppppp/8/8/8/8/PPPPPPPP/RNBQKBNR w - - 0 1\n\
    [extinction:chess]\n\
    king = -\n\
    commoner = k\n\
    castling = false\n\
    extinctionValue = loss\n\
    extinctionPieceTypes = pnbrqk\n\
    promotionPieceTypes = nbrqk\n\
    startFen = rnbqkbnr/pppppppp/8/8/8/8/PPPPPPPP/RNBQKBNR w - - 0 1\n\
    [losalamos:chess]\n\
    maxRank = 6\n\
    maxFile = 6\n\
    promotionRegionWhite = *6\n\
    bishop = -\n\
    promotionPieceTypes = nrq\n\
    doubleStep = false\n\
    castling = false\n\
    startFen = rnqknr/pppppp/6/6/PPPPPP/RNQKNR w - - 0 1\n\
    [capablanca:chess]\n\
    maxFile = 10\n\
    archbishop = a\n\
    chancellor = c\n\
    castlingKingFile = f\n\
    castlingKingsideFile = i\n\
    castlingQueensideFile = c\n\
    promotionPieceTypes = nbrqac\n\
    startFen = rnabqkbcnr/pppppppppp/10/10/10/10/PPPPPPPPPP/RNABQKBCNR w KQkq - 0 1\n\
    [seirawan:chess]\n\
    gating = true\n\
    seirawanGating = true\n\
    archbishop = h\n\
    chancellor = e\n\
    promotionPieceTypes = nbrqhe\n\
    startFen = rnbqkbnr/pppppppp/8/8/8/8/PPPPPPPP/RNBQKBNR[HEhe] w KQBCDFGkqbcdfg - 0 1\n\
    [xiangqi]\n\
    maxRank = 10\n\
    maxFile = 9\n\
    king = k:W\n\
    fers = a\n\
    elephant = b\n\
    horse = n\n\
    rook = r\n\
    cannon = c\n\
    soldier = p\n\
    soldierPromotionRank = 6\n\
    flyingGeneral = true\n\
    castling = false\n\
    stalemateValue = loss\n\
    nMoveRule = 0\n\
    mobilityRegionWhiteKing = d1 e1 f1 d2 e2 f2 d3 e3 f3\n\
    mobilityRegionBlackKing = d8 e8 f8 d9 e9 f9 d10 e10 f10\n\
    mobilityRegionWhiteFers = d1 e1 f1 d2 e2 f2 d3 e3 f3\n\
    mobilityRegionBlackFers = d8 e8 f8 d9 e9 f9 d10 e10 f10\n\
    mobilityRegionWhiteElephant = *1 *2 *3 *4 *5\n\
    mobilityRegionBlackElephant = *6 *7 *8 *9 *10\n\
    startFen = rnbakabnr/9/1c5c1/p1p1p1p1p/9/9/P1P1P1P1P/1C5C1/9/RNBAKABNR w - - 0 1";

fn builtin_bytes() -> &'static [u8]
    ensures { result.now ≡ builtin_text }
{
    BUILTIN
}

/// The sections of the ten variants that are built in, chess first.
pub fn builtin(alloc: Global) -> Result<Sections, Memory>
    ensures are { IfOk result (λ sections. sections ≡ builtin_sections) }
    ensures lines { IfOk result (λ sections. AreFileLines sections) }
{
    let mut sections = Sections::new(alloc);
    match sections.add(builtin_bytes()) {
        Ok(()) => Ok(sections),
        Err(_) => Err(Memory),
    }
}
