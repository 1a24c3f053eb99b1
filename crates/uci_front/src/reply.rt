//! A line that is answered at once.
ghost use Rattle.std.specs.Prelude.{◌≡◌, IfOk, OnOk, OnErr, IsErrOf};
ghost use Rattle.std.specs.Io.KnownBytes.{Appends, IsAtEnd};
ghost use Rattle.std.specs.Option.{option_copied};
ghost use Rattle.io_ports.specs.Cause.{Rose};
ghost use Rattle.io_ports.specs.Sink.{AppendsFront};
ghost use Rattle.io_ports.specs.Source.{Takes, got_lines};
ghost use Rattle.session_model.specs.Lines.{Causes};
ghost use Rattle.uci_front.specs.Plain.{text_said};

use io_ports::{Got, LineBuf, SearchFault, Sink, Source};
use watching::say;

/// Says a text, if there is one, and takes the next line.
///
/// # Errors
///
/// The fault of the sink. Then no line is taken.
pub(crate) fn tell<S: Source, K: Sink>(
    source: &mut S,
    sink: &mut K,
    line: &mut LineBuf,
    text: Option<&[u8]>,
) -> Result<Got, SearchFault>
    ensures said { OnOk result (Appends (K.taken sink.old) (K.taken sink.new) (text_said (option_copied text.entry))) }
    ensures takes { IfOk result (λ next. Takes (S.left source.old) (S.left source.new) (got_lines next line.new)) }
    ensures part { OnErr result
        (AppendsFront (K.taken sink.old) (K.taken sink.new) (text_said (option_copied text.entry))) }
    ensures still { OnErr result (source.new ≡ source.old) }
    ensures end { IfOk result (λ next. next ≡ Got.End → IsAtEnd (S.left source.new)) }
    ensures failed { IfOk result (λ next. next ≡ Got.Failed → Rose (S.faults source.old) (S.faults source.new)) }
    ensures owed { S.owed source.new ≡ S.owed source.old }
    ensures causes { Causes (S.faults source.old) (S.faults source.new) (K.faults sink.old) (K.faults sink.new)
        (IsErrOf result) }
{
    if let Some(text) = text {
        say(sink, text)?;
    }
    Ok(source.next_line(line))
}
