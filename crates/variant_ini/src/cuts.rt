//! Texts without the blanks at their ends.

ghost use Rattle.std.specs.Prelude.{◌≡◌, reverse};
ghost use Rattle.variant_ini.specs.Cuts.{without_blanks, trimmed};

use foundation::is_blank;

fn trim_start(bytes: &[u8]) -> &[u8]
    ensures { result.now ≡ without_blanks bytes.now }
{
    let mut rest = bytes;
    while let [first, behind @ ..] = rest {
        if !is_blank(*first) {
            break;
        }
        rest = behind;
    }
    rest
}

fn trim_end(bytes: &[u8]) -> &[u8]
    ensures { result.now ≡ reverse (without_blanks (reverse bytes.now)) }
{
    let mut rest = bytes;
    while let [before @ .., last] = rest {
        if !is_blank(*last) {
            break;
        }
        rest = before;
    }
    rest
}

/// The bytes without the spaces and tabs at both ends.
#[tactic(auto, unfolding(crate::specs::Cuts::trimmed))]
pub(crate) fn trim(bytes: &[u8]) -> &[u8]
    ensures { result.now ≡ trimmed bytes.now }
{
    trim_end(trim_start(bytes))
}
