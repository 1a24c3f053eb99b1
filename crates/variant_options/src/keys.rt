//! The keys that a variants file may have, in byte order.
ghost use Rattle.std.specs.Prelude.{◌≡◌, ◌-◌, ◌<◌, [], drop, length, map, slice_index_or, take};
ghost use Rattle.variant_options.specs.Keys.{ordered_keys};
ghost use Rattle.variant_options.specs.declared.keys.TheConstants.{KEYS};

/// How many keys there are: those of options, of regions of pieces, and of pieces.
pub const KEYS: usize = 213;

// The keys stand in four tables, since the prover computes with one of 213 texts too slowly.

static FIRST: [&[u8]; 54] = [
    b"alfil",
    b"amazon",
    b"archbishop",
    b"bers",
    b"bishop",
    b"biskni",
    b"cannon",
    b"capturesToHand",
    b"castling",
    b"castlingKingFile",
    b"castlingKingsideFile",
    b"castlingQueensideFile",
    b"castlingRank",
    b"castlingRookPieces",
    b"centaur",
    b"chancellor",
    b"checkCounting",
    b"checking",
    b"checkmateValue",
    b"commoner",
    b"customPiece1",
    b"customPiece10",
    b"customPiece11",
    b"customPiece12",
    b"customPiece13",
    b"customPiece14",
    b"customPiece15",
    b"customPiece16",
    b"customPiece17",
    b"customPiece18",
    b"customPiece19",
    b"customPiece2",
    b"customPiece20",
    b"customPiece21",
    b"customPiece22",
    b"customPiece23",
    b"customPiece24",
    b"customPiece3",
    b"customPiece4",
    b"customPiece5",
    b"customPiece6",
    b"customPiece7",
    b"customPiece8",
    b"customPiece9",
    b"doubleStep",
    b"doubleStepRegionBlack",
    b"doubleStepRegionWhite",
    b"dragon",
    b"dragonHorse",
    b"dropChecks",
    b"dropNoDoubled",
    b"dropRegionBlack",
    b"dropRegionWhite",
    b"elephant",
];

static SECOND: [&[u8]; 53] = [
    b"extinctionOpponentPieceCount",
    b"extinctionPieceCount",
    b"extinctionPieceTypes",
    b"extinctionValue",
    b"fers",
    b"fersAlfil",
    b"firstRankPawnDrops",
    b"flagPiece",
    b"flagRegionBlack",
    b"flagRegionWhite",
    b"flyingGeneral",
    b"gating",
    b"gold",
    b"horse",
    b"immobile",
    b"immobilityIllegal",
    b"king",
    b"knibis",
    b"knight",
    b"kniroo",
    b"lance",
    b"mandatoryPawnPromotion",
    b"mandatoryPiecePromotion",
    b"maxFile",
    b"maxRank",
    b"mobilityRegionBlackAlfil",
    b"mobilityRegionBlackAmazon",
    b"mobilityRegionBlackArchbishop",
    b"mobilityRegionBlackBers",
    b"mobilityRegionBlackBishop",
    b"mobilityRegionBlackBiskni",
    b"mobilityRegionBlackCannon",
    b"mobilityRegionBlackCentaur",
    b"mobilityRegionBlackChancellor",
    b"mobilityRegionBlackCommoner",
    b"mobilityRegionBlackCustomPiece1",
    b"mobilityRegionBlackCustomPiece10",
    b"mobilityRegionBlackCustomPiece11",
    b"mobilityRegionBlackCustomPiece12",
    b"mobilityRegionBlackCustomPiece13",
    b"mobilityRegionBlackCustomPiece14",
    b"mobilityRegionBlackCustomPiece15",
    b"mobilityRegionBlackCustomPiece16",
    b"mobilityRegionBlackCustomPiece17",
    b"mobilityRegionBlackCustomPiece18",
    b"mobilityRegionBlackCustomPiece19",
    b"mobilityRegionBlackCustomPiece2",
    b"mobilityRegionBlackCustomPiece20",
    b"mobilityRegionBlackCustomPiece21",
    b"mobilityRegionBlackCustomPiece22",
    b"mobilityRegionBlackCustomPiece23",
    b"mobilityRegionBlackCustomPiece24",
    b"mobilityRegionBlackCustomPiece3",
];

static THIRD: [&[u8]; 53] = [
    b"mobilityRegionBlackCustomPiece4",
    b"mobilityRegionBlackCustomPiece5",
    b"mobilityRegionBlackCustomPiece6",
    b"mobilityRegionBlackCustomPiece7",
    b"mobilityRegionBlackCustomPiece8",
    b"mobilityRegionBlackCustomPiece9",
    b"mobilityRegionBlackDragon",
    b"mobilityRegionBlackDragonHorse",
    b"mobilityRegionBlackElephant",
    b"mobilityRegionBlackFers",
    b"mobilityRegionBlackFersAlfil",
    b"mobilityRegionBlackGold",
    b"mobilityRegionBlackHorse",
    b"mobilityRegionBlackImmobile",
    b"mobilityRegionBlackKing",
    b"mobilityRegionBlackKnibis",
    b"mobilityRegionBlackKnight",
    b"mobilityRegionBlackKniroo",
    b"mobilityRegionBlackLance",
    b"mobilityRegionBlackQueen",
    b"mobilityRegionBlackRook",
    b"mobilityRegionBlackRookni",
    b"mobilityRegionBlackShogiKnight",
    b"mobilityRegionBlackShogiPawn",
    b"mobilityRegionBlackSilver",
    b"mobilityRegionBlackSoldier",
    b"mobilityRegionBlackWazir",
    b"mobilityRegionWhiteAlfil",
    b"mobilityRegionWhiteAmazon",
    b"mobilityRegionWhiteArchbishop",
    b"mobilityRegionWhiteBers",
    b"mobilityRegionWhiteBishop",
    b"mobilityRegionWhiteBiskni",
    b"mobilityRegionWhiteCannon",
    b"mobilityRegionWhiteCentaur",
    b"mobilityRegionWhiteChancellor",
    b"mobilityRegionWhiteCommoner",
    b"mobilityRegionWhiteCustomPiece1",
    b"mobilityRegionWhiteCustomPiece10",
    b"mobilityRegionWhiteCustomPiece11",
    b"mobilityRegionWhiteCustomPiece12",
    b"mobilityRegionWhiteCustomPiece13",
    b"mobilityRegionWhiteCustomPiece14",
    b"mobilityRegionWhiteCustomPiece15",
    b"mobilityRegionWhiteCustomPiece16",
    b"mobilityRegionWhiteCustomPiece17",
    b"mobilityRegionWhiteCustomPiece18",
    b"mobilityRegionWhiteCustomPiece19",
    b"mobilityRegionWhiteCustomPiece2",
    b"mobilityRegionWhiteCustomPiece20",
    b"mobilityRegionWhiteCustomPiece21",
    b"mobilityRegionWhiteCustomPiece22",
    b"mobilityRegionWhiteCustomPiece23",
];

static FOURTH: [&[u8]; 53] = [
    b"mobilityRegionWhiteCustomPiece24",
    b"mobilityRegionWhiteCustomPiece3",
    b"mobilityRegionWhiteCustomPiece4",
    b"mobilityRegionWhiteCustomPiece5",
    b"mobilityRegionWhiteCustomPiece6",
    b"mobilityRegionWhiteCustomPiece7",
    b"mobilityRegionWhiteCustomPiece8",
    b"mobilityRegionWhiteCustomPiece9",
    b"mobilityRegionWhiteDragon",
    b"mobilityRegionWhiteDragonHorse",
    b"mobilityRegionWhiteElephant",
    b"mobilityRegionWhiteFers",
    b"mobilityRegionWhiteFersAlfil",
    b"mobilityRegionWhiteGold",
    b"mobilityRegionWhiteHorse",
    b"mobilityRegionWhiteImmobile",
    b"mobilityRegionWhiteKing",
    b"mobilityRegionWhiteKnibis",
    b"mobilityRegionWhiteKnight",
    b"mobilityRegionWhiteKniroo",
    b"mobilityRegionWhiteLance",
    b"mobilityRegionWhiteQueen",
    b"mobilityRegionWhiteRook",
    b"mobilityRegionWhiteRookni",
    b"mobilityRegionWhiteShogiKnight",
    b"mobilityRegionWhiteShogiPawn",
    b"mobilityRegionWhiteSilver",
    b"mobilityRegionWhiteSoldier",
    b"mobilityRegionWhiteWazir",
    b"mustCapture",
    b"nFoldRule",
    b"nFoldValue",
    b"nMoveRule",
    b"nMoveRuleTypes",
    b"pawn",
    b"pieceDrops",
    b"promotedPieceType",
    b"promotionPieceTypes",
    b"promotionRegionBlack",
    b"promotionRegionWhite",
    b"promotionZonePawnDrops",
    b"queen",
    b"rook",
    b"rookni",
    b"seirawanGating",
    b"shogiKnight",
    b"shogiPawn",
    b"silver",
    b"soldier",
    b"soldierPromotionRank",
    b"stalemateValue",
    b"startFen",
    b"wazir",
];

fn first_keys() -> &'static [&'static [u8]]
    ensures { map (λ key. key.now) result.now ≡ take 54 ordered_keys }
{
    &FIRST
}

fn second_keys() -> &'static [&'static [u8]]
    ensures { map (λ key. key.now) result.now ≡ take 53 (drop 54 ordered_keys) }
{
    &SECOND
}

fn third_keys() -> &'static [&'static [u8]]
    ensures { map (λ key. key.now) result.now ≡ take 53 (drop 107 ordered_keys) }
{
    &THIRD
}

fn fourth_keys() -> &'static [&'static [u8]]
    ensures { map (λ key. key.now) result.now ≡ take 53 (drop 160 ordered_keys) }
{
    &FOURTH
}

/// The key at this place of the keys in byte order.
pub fn key_at(place: usize) -> &'static [u8]
    requires { place < KEYS }
    ensures { result.now ≡ slice_index_or ordered_keys place [] }
{
    if place < 54 {
        first_keys()[place]
    } else if place < 107 {
        second_keys()[place - 54]
    } else if place < 160 {
        third_keys()[place - 107]
    } else {
        fourth_keys()[place - 160]
    }
}
