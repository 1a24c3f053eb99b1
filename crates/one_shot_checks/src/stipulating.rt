//! What `stipulate` prints of a game.
ghost use Rattle.std.specs.Prelude.{◌≡◌, ◌≤◌, IfOk};
ghost use Rattle.stipulation.specs.Searches.{steps_of};
ghost use Rattle.one_shot_checks.specs.GameTexts.{cert_or_none, help_mate_of, self_mate_of};

use cert_text::write_cert;
use foundation::{Memory, Text};
use game_play::Game;
use std::alloc::Global;
use stipulation::{Cert, help_mate, self_mate};

// The text of the certificate, where one was found: of a helpmate, or else of a selfmate.
fn cert_or_none(alloc: Global, found: Option<Cert>, help: bool) -> Result<Text, Memory>
    ensures { IfOk result (λ text. text ≡ cert_or_none help (steps_of found)) }
{
    match found {
        Some(cert) => write_cert(alloc, &cert, help),
        None => Ok(Text {
            items: b"none\n".to_vec(alloc)?,
        }),
    }
}

/// The certificate of a selfmate of the side that is to move, within this number of moves, or `none`.
#[tactic(auto, unfolding(crate::specs::GameTexts::self_mate_of))]
pub fn self_mate_of(alloc: Global, moves: u16, game: &Game) -> Result<Text, Memory>
    requires least { 1 ≤ moves }
    requires most { moves ≤ 6 }
    ensures { IfOk result (λ text. text ≡ self_mate_of moves game.now) }
{
    let found = self_mate(alloc, game, moves)?;
    cert_or_none(alloc, found, false)
}

/// The certificate of a helpmate within this number of moves of each side, or `none`.
#[tactic(auto, unfolding(crate::specs::GameTexts::help_mate_of))]
pub fn help_mate_of(alloc: Global, moves: u16, game: &Game) -> Result<Text, Memory>
    requires least { 1 ≤ moves }
    requires most { moves ≤ 6 }
    ensures { IfOk result (λ text. text ≡ help_mate_of moves game.now) }
{
    let found = help_mate(alloc, game, moves)?;
    cert_or_none(alloc, found, true)
}
