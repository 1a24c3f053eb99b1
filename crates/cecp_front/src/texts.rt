//! What a session writes, but for the lines of depths.
ghost use Rattle.std.specs.Prelude.{◌≡◌, ◌++◌, IfOk, bytes_eq, codes, if◌then◌else◌, map};
ghost use Rattle.std.specs.List.{filter, flat_map};
ghost use Rattle.io_ports.specs.Heard.{too_long};
ghost use Rattle.session_model.specs.CecpSession as CecpSession;
ghost use Rattle.session_model.specs.CecpState as CecpState;
ghost use Rattle.uci_lines.specs.View.{texts};
ghost use Rattle.variant_rules.specs.Entries.{is_accepted};

use foundation::{Memory, Text};
use game_text::cause_name;
use io_ports::{Dialect, too_long_answer};
use move_text::write_move;
use rules_model::{Move, Outcome, Side};
use std::alloc::Global;
use uci_lines::joined_by;
use variant_rules::Variants;

/// These pieces, one after another.
pub(crate) fn text_from(alloc: Global, pieces: &[&[u8]]) -> Result<Text, Memory>
    ensures { IfOk result (λ text. text ≡ flat_map (λ piece. piece.now) pieces.now) }
{
    let mut items = Vec::new(alloc);
    for piece in pieces {
        items.extend_from_slice(piece)?;
    }
    Ok(Text { items })
}

/// `Error (WHY): LINE`.
pub(crate) fn error_line(alloc: Global, why: &[u8], line: &[u8]) -> Result<Text, Memory>
    ensures { IfOk result (λ text. text
        ≡ codes "Error (" ++ (why.now ++ (codes "): " ++ (line.now ++ codes "\n")))) }
{
    text_from(alloc, &[b"Error (", why, b"): ", line, b"\n"])
}

/// `Illegal move: M`.
pub(crate) fn illegal_line(alloc: Global, text: &[u8]) -> Result<Text, Memory>
    ensures { IfOk result (λ line. line ≡ CecpState.illegal text.now) }
{
    text_from(alloc, &[b"Illegal move: ", text, b"\n"])
}

/// The answer to a line that is too long.
pub(crate) fn long_line(alloc: Global) -> Result<Text, Memory>
    ensures { IfOk result (λ line. line ≡ too_long Dialect.Cecp) }
{
    let items = too_long_answer(Dialect::Cecp).to_vec(alloc)?;
    Ok(Text { items })
}

/// `pong N`.
pub(crate) fn pong_line(alloc: Global, digits: &[u8]) -> Result<Text, Memory>
    ensures { IfOk result (λ line. line ≡ codes "pong " ++ (digits.now ++ codes "\n")) }
{
    text_from(alloc, &[b"pong ", digits, b"\n"])
}

/// The result of a game, or an empty text where it goes on.
pub(crate) fn result_line(alloc: Global, outcome: Outcome) -> Result<Text, Memory>
    ensures { IfOk result (λ line. line ≡ CecpState.result_line outcome) }
{
    let (front, cause) = match outcome {
        Outcome::Ongoing => {
            return Ok(Text {
                items: Vec::new(alloc),
            });
        }
        Outcome::Won(Side::White, cause) => (b"1-0 {White wins by ".as_slice(), cause),
        Outcome::Won(Side::Black, cause) => (b"0-1 {Black wins by ".as_slice(), cause),
        Outcome::Drawn(cause) => (b"1/2-1/2 {Draw by ".as_slice(), cause),
    };
    text_from(alloc, &[front, cause_name(cause).as_bytes(), b"}\n"])
}

/// `move M`, and the result of the game where the move ends it.
pub(crate) fn move_lines(alloc: Global, m: &Move, outcome: Outcome) -> Result<Text, Memory>
    ensures { IfOk result (λ lines. lines ≡ CecpSession.move_line m.now ++ CecpState.result_line outcome) }
{
    let text = write_move(m);
    let result = result_line(alloc, outcome)?;
    text_from(
        alloc,
        &[
            b"move ",
            text.items.as_slice(),
            b"\n",
            result.items.as_slice(),
        ],
    )
}

// Chess is `normal`.
fn shown_name(name: &[u8]) -> &[u8]
    ensures { result.now ≡ (if bytes_eq name.now (codes "chess") then codes "normal" else name.now) }
{
    if name == b"chess".as_slice() {
        b"normal"
    } else {
        name
    }
}

// The names of the variants that are accepted.
fn accepted_names<'a>(alloc: Global, variants: &'a Variants) -> Result<Vec<&'a [u8]>, Memory>
    ensures { IfOk result (λ names. texts names.items
        ≡ map CecpState.shown_name (filter is_accepted variants.now)) }
{
    let mut names = Vec::new(alloc);
    for place in 0..variants.len() {
        let (name, entry) = variants.entry(place);
        if entry.is_ok() {
            names.push(shown_name(name))?;
        }
    }
    Ok(names)
}

/// The features of the engine, with the variants that are accepted.
pub(crate) fn feature_line(alloc: Global, variants: &Variants) -> Result<Text, Memory>
    ensures { IfOk result (λ line. line
        ≡ codes "feature ping=1 setboard=1 usermove=1 colors=0 sigint=0 sigterm=0 myname=\"vengine\" variants=\""
        ++ (CecpState.names_text variants.now ++ codes "\" done=1\n")) }
{
    let names = accepted_names(alloc, variants)?;
    let names = joined_by(alloc, b',', names.as_slice())?;
    text_from(
        alloc,
        &[
            b"feature ping=1 setboard=1 usermove=1 colors=0 sigint=0 sigterm=0 myname=\"vengine\" variants=\"",
            names.items.as_slice(),
            b"\" done=1\n",
        ],
    )
}
