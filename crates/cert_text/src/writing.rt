//! Writes the text of a certificate.
ghost use Rattle.std.specs.Prelude.{◌≡◌, ◌++◌, ℕ, IfOk, Ok, OnOk, map};
ghost use Rattle.io_ports.specs.Lines.{lines_of};
ghost use Rattle.game_play.specs.Played.{Played, story};
ghost use Rattle.strategy.specs.Writing.{ended_line, ended_lines};
ghost use Rattle.cert_text.specs.Reading.{cert_of};
ghost use Rattle.cert_text.specs.Writing as Writing;

use foundation::{Memory, Text};
use move_text::write_move;
use std::alloc::Global;
use stipulation::{Cert, Step};
use strategy::{push_line, push_number, push_text};

#[tactic(auto, unfolding(crate::specs::Writing::greatest_ply))]
fn greatest_ply(steps: &[Step]) -> u16
    ensures { result ≡ Writing.greatest_ply steps.now }
{
    let mut greatest = 0;
    for s in steps {
        if s.ply > greatest {
            greatest = s.ply;
        }
    }
    greatest
}

fn title_word(help: bool) -> &'static [u8]
    ensures { result.now ≡ Writing.title_word help }
{
    if help { b"helpmate " } else { b"selfmate " }
}

/// Appends the first line.
fn push_title(text: &mut Vec<u8>, help: bool, steps: &[Step]) -> Result<(), Memory>
    ensures { OnOk result (text.new.items ≡ text.old.items ++ ended_line (Writing.title_text help steps.now)) }
{
    let greatest = u64::from(greatest_ply(steps));
    push_text(text, title_word(help))?;
    push_number(text, (greatest + 1) / 2)?;
    push_text(text, b"\n")
}

/// Appends the line of a step.
#[tactic(auto, unfolding(crate::specs::Writing::step_text))]
fn push_step(text: &mut Vec<u8>, s: &Step) -> Result<(), Memory>
    ensures { OnOk result (text.new.items ≡ text.old.items ++ ended_line (Writing.step_text s.now)) }
{
    push_number(text, u64::from(s.ply))?;
    push_text(text, b" ")?;
    push_text(text, write_move(&s.chosen).items.as_slice())?;
    push_text(text, b"\n")
}

/// Appends the lines of steps.
#[tactic(auto, unfolding(strategy::specs::Writing::ended_lines))]
fn push_steps(text: &mut Vec<u8>, steps: &[Step]) -> Result<(), Memory>
    ensures { OnOk result (text.new.items ≡ text.old.items ++ ended_lines (map Writing.step_text steps.now)) }
{
    for s in steps {
        push_step(text, s)?;
    }
    Ok(())
}

/// Writes the text of a certificate: of a helpmate, or else of a selfmate. Each line ends with LF. Where the
/// certificate holds for a game within 6 moves or fewer, reading the text with that game gives it back.
///
/// `Memory` is the answer where there was none for the text.
pub fn write_cert(alloc: Global, cert: &Cert, help: bool) -> Result<Text, Memory>
    ensures text { IfOk result (λ text. text ≡ Writing.cert_text help cert.now.steps) }
    ensures back { IfOk result (λ text. (g : Played) (n : ℕ) → Writing.HoldsIn g n cert.now.steps →
        cert_of g.rules (story g) (lines_of text) ≡ Ok cert.now) }
{
    let steps = &cert.steps;
    let items = steps.items.as_slice();
    let mut text = Vec::new(alloc);
    push_title(&mut text, help, items)?;
    push_steps(&mut text, items)?;
    push_line(&mut text, b"end")?;
    Ok(Text { items: text })
}
