//! A text in memory as a source of its lines.
ghost use Rattle.std.specs.Prelude.{◌≡◌, Some};
ghost use Rattle.std.specs.Io.KnownBytes.{IsAtEnd};
ghost use Rattle.io_ports.specs.Source.{Takes, Untold, got_lines};

use io_ports::{Got, LineBuf, MAX_LINE, Polled, Source};
use strategy::cut_line;

/// What is left of a text in memory, as a source of its lines. It never fails.
#[derive(Drop)]
pub struct TextSource<'a> {
    rest: &'a [u8],
}

impl<'a> TextSource<'a> {
    /// All of the text.
    pub fn new(text: &'a [u8]) -> TextSource<'a>
        ensures { result.rest.now ≡ text.now }
    {
        TextSource { rest: text }
    }

    // Takes the next line, where there is one.
    fn take_line(&mut self, line: &mut LineBuf) -> Got
        ensures takes { Takes (Some self.old.rest.now) (Some self.new.rest.now) (got_lines result line.new) }
        ensures end { result ≡ Got.End → IsAtEnd (Some self.new.rest.now) }
        ensures works { result ≡ Got.Failed → ⊥ }
    {
        if self.rest.is_empty() {
            return Got::End;
        }
        let (text, after) = cut_line(self.rest);
        self.rest = after;
        if text.len() > MAX_LINE {
            return Got::TooLong;
        }
        line.set(text);
        Got::Line
    }
}

impl Source for TextSource<'_> {
    ghost left = { λ source. Some source.rest.now };

    ghost owed = { λ source. Untold };

    ghost faults = { λ source. 0 };

    fn next_line(&mut self, line: &mut LineBuf) -> Got {
        self.take_line(line)
    }

    fn poll_line(&mut self, line: &mut LineBuf) -> Polled {
        self.take_line(line).into()
    }
}
