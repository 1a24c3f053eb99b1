//! Reads a text.
ghost use Rattle.std.specs.Prelude.{◌≡◌, ◌<◌, ◌≤◌, drop, IfOk, length, take};
ghost use Rattle.std.specs.Io.BufRead.{drop_through, strip_last, take_through};
ghost use Rattle.io_ports.specs.Lines.{line_feed, lines_of, text_of};
ghost use Rattle.rules_model.specs.Fit.{IsFit};
ghost use Rattle.strategy.specs.Reading.{Answers, AreSound, strategy_of};

use crate::nodes::Strategy;
use crate::{Reader, StrategyFault};
use rules_model::Rules;
use std::alloc::Global;

/// The length of the first line, its LF included.
fn line_len(bytes: &[u8]) -> usize
    ensures within { result ≤ length bytes.now }
    ensures some { 0 < length bytes.now → 0 < result }
    ensures piece { take result bytes.now ≡ take_through line_feed bytes.now }
    ensures rest { drop result bytes.now ≡ drop_through line_feed bytes.now }
{
    for (i, byte) in bytes.iter().enumerate() {
        if *byte == b'\n' {
            return i + 1;
        }
    }
    bytes.len()
}

fn stripped(text: &[u8], byte: u8) -> &[u8]
    ensures { result.now ≡ strip_last byte text.now }
{
    if !text.is_empty() && text[text.len() - 1] == byte {
        &text[..text.len() - 1]
    } else {
        text
    }
}

/// The first line, without its LF and a CR before that, and the text after it.
pub fn cut_line(bytes: &[u8]) -> (&[u8], &[u8])
    requires { 0 < length bytes.now }
    ensures line { result.0.now ≡ text_of (take_through line_feed bytes.now) }
    ensures rest { result.1.now ≡ drop_through line_feed bytes.now }
    ensures less { length result.1.now < length bytes.now }
{
    let len = line_len(bytes);
    let line = &bytes[..len];
    (stripped(stripped(line, b'\n'), b'\r'), &bytes[len..])
}

/// Reads the text of a strategy.
///
/// Lines end with LF, which the last may lack; a CR at the end of a line is dropped. The answer is the strategy, or the
/// fault of the first faulty line. Room for nodes is taken as they come, however many are announced.
pub fn read(alloc: Global, rules: &Rules, text: &[u8]) -> Result<Strategy, StrategyFault>
    requires { IsFit rules.now }
    ensures answer { Answers (strategy_of rules.now (lines_of text.now)) result }
    ensures sound { IfOk result (λ s. AreSound rules.now s.nodes) }
{
    let mut reader = Reader::new(alloc);
    let mut rest = text;
    while !rest.is_empty() {
        let (line, after) = cut_line(rest);
        reader.take_line(rules, line)?;
        rest = after;
    }
    reader.finish()
}
