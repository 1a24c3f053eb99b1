//! Reads the text of a certificate, from a source or from memory.
ghost use Rattle.io_ports.specs.Cause.{HasCause};
ghost use Rattle.io_ports.specs.Lines.{lines_of};
ghost use Rattle.game_play.specs.Played.{story};
ghost use Rattle.game_text.specs.HeardLines.{HeardLines};
ghost use Rattle.cert_text.specs.Needed.{lines_of_cert};
ghost use Rattle.cert_text.specs.Reading.{cert_of};
ghost use Rattle.cert_text.specs.View as View;

use crate::fault::{CertFault, NoCert};
use crate::reader::Reader;
use game_play::Game;
use io_ports::{Got, LineBuf, Source};
use proof_text::TextSource;
use std::alloc::Global;
use stipulation::Cert;

// Takes the lines to the end, or to the first faulty one. A line after the one that ends the certificate is faulty.
fn take_lines<S: Source>(
    game: &Game,
    reader: &mut Reader,
    source: &mut S,
    line: &mut LineBuf,
) -> Result<(), NoCert>
    requires path { View.IsOnPath game.now reader.old }
    ensures heard { HeardLines (S.left source.old) (S.left source.new) (View.lines_on game.now reader.old)
        (λ lines. View.SaysTaken (View.taken game.now reader.old lines) reader.new result) }
    ensures cause { HasCause (S.faults source.old) (S.faults source.new) (View.IsUnread result) }
{
    for _count in 0..u64::MAX {
        match source.next_line(line) {
            Got::Line => reader.take_line(game, line.text())?,
            Got::TooLong => return Err(NoCert::Faulty(reader.fault_of_long_line())),
            Got::End => return Ok(()),
            Got::Failed => return Err(NoCert::Unread),
        }
    }
    Err(NoCert::Faulty(CertFault::Memory))
}

/// Reads a certificate for the game from the lines of the source, to their end or to the first faulty one.
///
/// # Errors
///
/// The fault of the first faulty line. No line after it is taken. `Unread` where the source failed; then nothing is
/// known of the lines.
pub fn read_cert_lines<S: Source>(
    alloc: Global,
    game: &Game,
    source: &mut S,
) -> Result<Cert, NoCert>
    ensures heard { HeardLines (S.left source.old) (S.left source.new) (lines_of_cert game.now.rules (story game.now))
        (λ lines. View.SaysCert (cert_of game.now.rules (story game.now) lines) result) }
    ensures cause { HasCause (S.faults source.old) (S.faults source.new) (View.IsUnread result) }
{
    let mut line = LineBuf::new(alloc)?;
    let mut reader = Reader::new(alloc);
    take_lines(game, &mut reader, source, &mut line)?;
    Ok(reader.finish()?)
}

/// Reads the text of a certificate for the game.
///
/// Lines end with LF, which the last may lack; a CR at the end of a line is dropped. Whether the certificate holds is
/// asked by `stipulation`'s `check_self` and `check_help`.
///
/// # Errors
///
/// The fault of the first faulty line.
pub fn read_cert(alloc: Global, game: &Game, text: &[u8]) -> Result<Cert, CertFault>
    ensures { View.Answers (cert_of game.now.rules (story game.now) (lines_of text.now)) result }
{
    let mut source = TextSource::new(text);
    match read_cert_lines(alloc, game, &mut source) {
        Ok(cert) => Ok(cert),
        Err(NoCert::Faulty(fault)) => Err(fault),
        Err(NoCert::Unread) => unreachable!(),
    }
}
