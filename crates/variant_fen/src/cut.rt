//! Marks at the front of a text.
ghost use Rattle.std.specs.Prelude.{◌≡◌};
ghost use Rattle.variant_fen.specs.Cut.{begins_with, unmarked};

/// Whether a mark stands at the front, and the text without it.
pub(crate) fn cut_mark(text: &[u8], mark: u8) -> (bool, &[u8])
    ensures found { result.0 ≡ begins_with mark text.now }
    ensures rest { result.1.now ≡ unmarked mark text.now }
{
    match text.split_first() {
        Some((first, rest)) if *first == mark => (true, rest),
        _ => (false, text),
    }
}
