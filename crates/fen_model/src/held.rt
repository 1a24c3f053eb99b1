//! What the sides hold beside pieces.

/// The castling rights by side and wing, and the gates of each side as bits of its files. White and kingside have index
/// 0.
#[derive(Clone, Copy, PartialEq, Eq)]
pub struct Held {
    pub rights: [[bool; 2]; 2],
    pub gates: [u16; 2],
}
