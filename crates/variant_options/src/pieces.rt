//! The pieces that a variants file may name, and how their values are written.
ghost use Rattle.std.specs.Prelude.{◌≡◌, length, map};
ghost use Rattle.std.specs.List.{find, list_any};
ghost use Rattle.std.specs.Option.{option_copied, option_map};
ghost use Rattle.std.specs.Str.{bytes_eq};
ghost use Rattle.variant_options.specs.LineFaults.{piece_named};
ghost use Rattle.variant_options.specs.Options.{is_mobility_key, is_pawn_key, is_region_key, region_keys};
ghost use Rattle.variant_options.specs.PieceTable.{pieces};
ghost use Rattle.variant_options.specs.PieceView.{piece_view, key_pair};
ghost use Rattle.variant_options.specs.declared.pieces.TheConstants.{PIECE_COUNT};

/// How a piece moves.
#[derive(Clone, Copy)]
pub enum Movement {
    /// By no word: the chess pawn, and the piece that never moves.
    Wordless,
    /// By this Betza word.
    Fixed(&'static [u8]),
    /// By this word, where its value has no other.
    Default(&'static [u8]),
    /// By the word of its value.
    Custom,
}

/// The keys of the regions where the pieces of White and of Black may go.
#[derive(Clone, Copy)]
pub enum RegionKeys {
    /// No such keys: the chess pawn.
    Everywhere,
    Keys(&'static [u8], &'static [u8]),
}

/// A piece: its key, and how it moves.
#[derive(Clone, Copy)]
pub struct Piece(pub &'static [u8], pub Movement);

/// How many pieces the table has.
pub const PIECE_COUNT: usize = 56;

/// The place of the chess pawn in the table.
pub const PAWN: usize = 0;

/// The place of the king in the table.
pub const KING: usize = 1;

/// The place of the rook in the table.
pub const ROOK: usize = 8;

/// The place of the soldier in the table.
pub const SOLDIER: usize = 26;

/// The pieces, in the order of the table.
static PIECES: [Piece; PIECE_COUNT] = [
    Piece(b"pawn", Movement::Wordless),
    Piece(b"king", Movement::Default(b"K")),
    Piece(b"wazir", Movement::Fixed(b"W")),
    Piece(b"fers", Movement::Fixed(b"F")),
    Piece(b"alfil", Movement::Fixed(b"A")),
    Piece(b"fersAlfil", Movement::Fixed(b"FA")),
    Piece(b"knight", Movement::Fixed(b"N")),
    Piece(b"bishop", Movement::Fixed(b"B")),
    Piece(b"rook", Movement::Fixed(b"R")),
    Piece(b"queen", Movement::Fixed(b"Q")),
    Piece(b"commoner", Movement::Fixed(b"K")),
    Piece(b"archbishop", Movement::Fixed(b"BN")),
    Piece(b"chancellor", Movement::Fixed(b"RN")),
    Piece(b"amazon", Movement::Fixed(b"QN")),
    Piece(b"centaur", Movement::Fixed(b"KN")),
    Piece(b"silver", Movement::Fixed(b"FfW")),
    Piece(b"gold", Movement::Fixed(b"WfF")),
    Piece(b"dragonHorse", Movement::Fixed(b"BW")),
    Piece(b"dragon", Movement::Fixed(b"RF")),
    Piece(b"bers", Movement::Fixed(b"RF")),
    Piece(b"lance", Movement::Fixed(b"fR")),
    Piece(b"shogiPawn", Movement::Fixed(b"fW")),
    Piece(b"shogiKnight", Movement::Fixed(b"ffN")),
    Piece(b"cannon", Movement::Fixed(b"mRcpR")),
    Piece(b"horse", Movement::Fixed(b"nN")),
    Piece(b"elephant", Movement::Fixed(b"nA")),
    Piece(b"soldier", Movement::Fixed(b"fsW")),
    Piece(b"knibis", Movement::Fixed(b"mNcB")),
    Piece(b"biskni", Movement::Fixed(b"mBcN")),
    Piece(b"kniroo", Movement::Fixed(b"mNcR")),
    Piece(b"rookni", Movement::Fixed(b"mRcN")),
    Piece(b"immobile", Movement::Wordless),
    Piece(b"customPiece1", Movement::Custom),
    Piece(b"customPiece2", Movement::Custom),
    Piece(b"customPiece3", Movement::Custom),
    Piece(b"customPiece4", Movement::Custom),
    Piece(b"customPiece5", Movement::Custom),
    Piece(b"customPiece6", Movement::Custom),
    Piece(b"customPiece7", Movement::Custom),
    Piece(b"customPiece8", Movement::Custom),
    Piece(b"customPiece9", Movement::Custom),
    Piece(b"customPiece10", Movement::Custom),
    Piece(b"customPiece11", Movement::Custom),
    Piece(b"customPiece12", Movement::Custom),
    Piece(b"customPiece13", Movement::Custom),
    Piece(b"customPiece14", Movement::Custom),
    Piece(b"customPiece15", Movement::Custom),
    Piece(b"customPiece16", Movement::Custom),
    Piece(b"customPiece17", Movement::Custom),
    Piece(b"customPiece18", Movement::Custom),
    Piece(b"customPiece19", Movement::Custom),
    Piece(b"customPiece20", Movement::Custom),
    Piece(b"customPiece21", Movement::Custom),
    Piece(b"customPiece22", Movement::Custom),
    Piece(b"customPiece23", Movement::Custom),
    Piece(b"customPiece24", Movement::Custom),
];

/// The keys of the regions of the pieces, in the same order.
static REGION_KEYS: [RegionKeys; PIECE_COUNT] = [
    RegionKeys::Everywhere,
    RegionKeys::Keys(b"mobilityRegionWhiteKing", b"mobilityRegionBlackKing"),
    RegionKeys::Keys(b"mobilityRegionWhiteWazir", b"mobilityRegionBlackWazir"),
    RegionKeys::Keys(b"mobilityRegionWhiteFers", b"mobilityRegionBlackFers"),
    RegionKeys::Keys(b"mobilityRegionWhiteAlfil", b"mobilityRegionBlackAlfil"),
    RegionKeys::Keys(
        b"mobilityRegionWhiteFersAlfil",
        b"mobilityRegionBlackFersAlfil",
    ),
    RegionKeys::Keys(b"mobilityRegionWhiteKnight", b"mobilityRegionBlackKnight"),
    RegionKeys::Keys(b"mobilityRegionWhiteBishop", b"mobilityRegionBlackBishop"),
    RegionKeys::Keys(b"mobilityRegionWhiteRook", b"mobilityRegionBlackRook"),
    RegionKeys::Keys(b"mobilityRegionWhiteQueen", b"mobilityRegionBlackQueen"),
    RegionKeys::Keys(
        b"mobilityRegionWhiteCommoner",
        b"mobilityRegionBlackCommoner",
    ),
    RegionKeys::Keys(
        b"mobilityRegionWhiteArchbishop",
        b"mobilityRegionBlackArchbishop",
    ),
    RegionKeys::Keys(
        b"mobilityRegionWhiteChancellor",
        b"mobilityRegionBlackChancellor",
    ),
    RegionKeys::Keys(b"mobilityRegionWhiteAmazon", b"mobilityRegionBlackAmazon"),
    RegionKeys::Keys(b"mobilityRegionWhiteCentaur", b"mobilityRegionBlackCentaur"),
    RegionKeys::Keys(b"mobilityRegionWhiteSilver", b"mobilityRegionBlackSilver"),
    RegionKeys::Keys(b"mobilityRegionWhiteGold", b"mobilityRegionBlackGold"),
    RegionKeys::Keys(
        b"mobilityRegionWhiteDragonHorse",
        b"mobilityRegionBlackDragonHorse",
    ),
    RegionKeys::Keys(b"mobilityRegionWhiteDragon", b"mobilityRegionBlackDragon"),
    RegionKeys::Keys(b"mobilityRegionWhiteBers", b"mobilityRegionBlackBers"),
    RegionKeys::Keys(b"mobilityRegionWhiteLance", b"mobilityRegionBlackLance"),
    RegionKeys::Keys(
        b"mobilityRegionWhiteShogiPawn",
        b"mobilityRegionBlackShogiPawn",
    ),
    RegionKeys::Keys(
        b"mobilityRegionWhiteShogiKnight",
        b"mobilityRegionBlackShogiKnight",
    ),
    RegionKeys::Keys(b"mobilityRegionWhiteCannon", b"mobilityRegionBlackCannon"),
    RegionKeys::Keys(b"mobilityRegionWhiteHorse", b"mobilityRegionBlackHorse"),
    RegionKeys::Keys(
        b"mobilityRegionWhiteElephant",
        b"mobilityRegionBlackElephant",
    ),
    RegionKeys::Keys(b"mobilityRegionWhiteSoldier", b"mobilityRegionBlackSoldier"),
    RegionKeys::Keys(b"mobilityRegionWhiteKnibis", b"mobilityRegionBlackKnibis"),
    RegionKeys::Keys(b"mobilityRegionWhiteBiskni", b"mobilityRegionBlackBiskni"),
    RegionKeys::Keys(b"mobilityRegionWhiteKniroo", b"mobilityRegionBlackKniroo"),
    RegionKeys::Keys(b"mobilityRegionWhiteRookni", b"mobilityRegionBlackRookni"),
    RegionKeys::Keys(
        b"mobilityRegionWhiteImmobile",
        b"mobilityRegionBlackImmobile",
    ),
    RegionKeys::Keys(
        b"mobilityRegionWhiteCustomPiece1",
        b"mobilityRegionBlackCustomPiece1",
    ),
    RegionKeys::Keys(
        b"mobilityRegionWhiteCustomPiece2",
        b"mobilityRegionBlackCustomPiece2",
    ),
    RegionKeys::Keys(
        b"mobilityRegionWhiteCustomPiece3",
        b"mobilityRegionBlackCustomPiece3",
    ),
    RegionKeys::Keys(
        b"mobilityRegionWhiteCustomPiece4",
        b"mobilityRegionBlackCustomPiece4",
    ),
    RegionKeys::Keys(
        b"mobilityRegionWhiteCustomPiece5",
        b"mobilityRegionBlackCustomPiece5",
    ),
    RegionKeys::Keys(
        b"mobilityRegionWhiteCustomPiece6",
        b"mobilityRegionBlackCustomPiece6",
    ),
    RegionKeys::Keys(
        b"mobilityRegionWhiteCustomPiece7",
        b"mobilityRegionBlackCustomPiece7",
    ),
    RegionKeys::Keys(
        b"mobilityRegionWhiteCustomPiece8",
        b"mobilityRegionBlackCustomPiece8",
    ),
    RegionKeys::Keys(
        b"mobilityRegionWhiteCustomPiece9",
        b"mobilityRegionBlackCustomPiece9",
    ),
    RegionKeys::Keys(
        b"mobilityRegionWhiteCustomPiece10",
        b"mobilityRegionBlackCustomPiece10",
    ),
    RegionKeys::Keys(
        b"mobilityRegionWhiteCustomPiece11",
        b"mobilityRegionBlackCustomPiece11",
    ),
    RegionKeys::Keys(
        b"mobilityRegionWhiteCustomPiece12",
        b"mobilityRegionBlackCustomPiece12",
    ),
    RegionKeys::Keys(
        b"mobilityRegionWhiteCustomPiece13",
        b"mobilityRegionBlackCustomPiece13",
    ),
    RegionKeys::Keys(
        b"mobilityRegionWhiteCustomPiece14",
        b"mobilityRegionBlackCustomPiece14",
    ),
    RegionKeys::Keys(
        b"mobilityRegionWhiteCustomPiece15",
        b"mobilityRegionBlackCustomPiece15",
    ),
    RegionKeys::Keys(
        b"mobilityRegionWhiteCustomPiece16",
        b"mobilityRegionBlackCustomPiece16",
    ),
    RegionKeys::Keys(
        b"mobilityRegionWhiteCustomPiece17",
        b"mobilityRegionBlackCustomPiece17",
    ),
    RegionKeys::Keys(
        b"mobilityRegionWhiteCustomPiece18",
        b"mobilityRegionBlackCustomPiece18",
    ),
    RegionKeys::Keys(
        b"mobilityRegionWhiteCustomPiece19",
        b"mobilityRegionBlackCustomPiece19",
    ),
    RegionKeys::Keys(
        b"mobilityRegionWhiteCustomPiece20",
        b"mobilityRegionBlackCustomPiece20",
    ),
    RegionKeys::Keys(
        b"mobilityRegionWhiteCustomPiece21",
        b"mobilityRegionBlackCustomPiece21",
    ),
    RegionKeys::Keys(
        b"mobilityRegionWhiteCustomPiece22",
        b"mobilityRegionBlackCustomPiece22",
    ),
    RegionKeys::Keys(
        b"mobilityRegionWhiteCustomPiece23",
        b"mobilityRegionBlackCustomPiece23",
    ),
    RegionKeys::Keys(
        b"mobilityRegionWhiteCustomPiece24",
        b"mobilityRegionBlackCustomPiece24",
    ),
];

/// The table of pieces.
pub fn pieces() -> &'static [Piece]
    ensures rows { map piece_view result.now ≡ pieces }
    ensures count { length result.now ≡ PIECE_COUNT }
{
    &PIECES
}

/// The keys of their regions.
pub fn region_keys() -> &'static [RegionKeys]
    ensures rows { map key_pair result.now ≡ map region_keys pieces }
    ensures count { length result.now ≡ PIECE_COUNT }
{
    &REGION_KEYS
}

impl Piece {
    /// Its own word.
    pub fn word(&self) -> Option<&'static [u8]>
        ensures { option_copied result ≡ (piece_view self.now).word }
    {
        match self.1 {
            Movement::Fixed(word) | Movement::Default(word) => Some(word),
            Movement::Wordless | Movement::Custom => None,
        }
    }

    /// Whether it is the chess pawn.
    pub fn is_pawn(&self) -> bool
        ensures { result ≡ is_pawn_key (piece_view self.now).key }
    {
        matches!(self.0, b"pawn")
    }
}

/// Whether the bytes are one of the keys.
fn is_region_key(keys: &RegionKeys, key: &[u8]) -> bool
    ensures { result ≡ is_region_key (key_pair keys.now) key.now }
{
    match *keys {
        RegionKeys::Everywhere => false,
        RegionKeys::Keys(white, black) => white == key || black == key,
    }
}

fn some_region_key(regions: &[RegionKeys], key: &[u8]) -> bool
    ensures { result ≡ list_any (λ keys. is_region_key (key_pair keys) key.now) regions.now }
{
    regions.iter().any(|keys| is_region_key(keys, key))
}

/// Whether the bytes are the key of a region of some piece.
pub fn is_mobility_key(key: &[u8]) -> bool
    ensures { result ≡ is_mobility_key key.now }
{
    some_region_key(region_keys(), key)
}

fn find_piece<'a>(pieces: &'a [Piece], key: &[u8]) -> Option<&'a Piece>
    ensures { option_copied result ≡ find (λ piece. bytes_eq (piece_view piece).key key.now) pieces.now }
{
    pieces.iter().find(|piece| piece.0 == key)
}

/// The piece of the key.
pub fn piece_named(key: &[u8]) -> Option<&'static Piece>
    ensures { option_map piece_view (option_copied result) ≡ piece_named key.now }
{
    find_piece(pieces(), key)
}
