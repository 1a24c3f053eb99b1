//! What a byte of a word can be.
ghost use Rattle.std.specs.Prelude.{◌≡◌};
ghost use Rattle.betza_text.specs.Letters as Letters;

/// Whether the byte stands before the atom: a lower-case letter, a bracket or a hyphen.
#[tactic(auto, unfolding(crate::specs::Letters::is_prefix))]
pub(crate) fn is_prefix(byte: u8) -> bool
    ensures { result ≡ Letters.is_prefix byte }
{
    matches!(
        byte,
        b'a'..=b'z' | b'[' | b']' | b'(' | b')' | b'{' | b'}' | b'-'
    )
}

#[tactic(auto, unfolding(crate::specs::Letters::is_atom))]
pub(crate) fn is_atom(byte: u8) -> bool
    ensures { result ≡ Letters.is_atom byte }
{
    matches!(
        byte,
        b'W' | b'D'
            | b'H'
            | b'R'
            | b'F'
            | b'A'
            | b'G'
            | b'B'
            | b'N'
            | b'L'
            | b'C'
            | b'J'
            | b'Z'
            | b'K'
            | b'Q'
    )
}

/// Whether a part has the letter at most once.
#[tactic(auto, unfolding(crate::specs::Letters::is_once))]
pub(crate) fn is_once(byte: u8) -> bool
    ensures { result ≡ Letters.is_once byte }
{
    matches!(byte, b'm' | b'c' | b'n' | b'p' | b'g')
}

#[tactic(auto, unfolding(crate::specs::Letters::is_direction))]
pub(crate) fn is_direction(byte: u8) -> bool
    ensures { result ≡ Letters.is_direction byte }
{
    matches!(byte, b'f' | b'b' | b'l' | b'r' | b'v' | b's' | b'h')
}
