//! Reads a strategy from the lines of a source.
ghost use Rattle.std.specs.Prelude.{◌≡◌, IfOk};
ghost use Rattle.io_ports.specs.Cause.{HasCause};
ghost use Rattle.rules_model.specs.Fit.{IsFit};
ghost use Rattle.game_text.specs.HeardLines.{HeardLines};
ghost use Rattle.strategy.specs.Needed.{lines_of_strategy, lines_on};
ghost use Rattle.strategy.specs.Reading.{AreSound, strategy_of, taken};
ghost use Rattle.proof_text.specs.Reading.{body_of, lines_of_body};
ghost use Rattle.proof_text.specs.StrategyView.{IsUnread, SaysStrategy, SaysTaken};

use foundation::Memory;
use io_ports::{Got, LineBuf, Source};
use rules_model::Rules;
use std::alloc::Global;
use strategy::{Reader, Strategy, StrategyFault};

/// Why no strategy was read.
#[derive(Clone, Copy, PartialEq, Eq)]
pub enum NoStrategy {
    /// The lines have this fault, or there was no memory.
    Faulty(StrategyFault),
    /// The source failed.
    Unread,
}

impl From<StrategyFault> for NoStrategy {
    ghost use Rattle.std.specs.Prelude.{◌≡◌};
    ghost use Rattle.proof_text.specs.declared.strategy_lines.NoStrategy.TheVariants as no_strategy;

    ghost from_gives = { λ why given. given ≡ no_strategy.Faulty why };

    fn from(why: StrategyFault) -> Self {
        NoStrategy::Faulty(why)
    }
}

impl From<Memory> for NoStrategy {
    ghost use Rattle.std.specs.Prelude.{◌≡◌};
    ghost use Rattle.strategy.specs.declared.fault.StrategyFault.TheVariants as fault;
    ghost use Rattle.proof_text.specs.declared.strategy_lines.NoStrategy.TheVariants as no_strategy;

    ghost from_gives = { λ _ given. given ≡ no_strategy.Faulty fault.Memory };

    fn from(_error: Memory) -> Self {
        NoStrategy::Faulty(StrategyFault::Memory)
    }
}

// Takes the lines to the end, or to the first faulty one. A line after the one that ends the strategy is faulty.
fn take_lines<S: Source>(
    rules: &Rules,
    reader: &mut Reader,
    source: &mut S,
    line: &mut LineBuf,
) -> Result<(), NoStrategy>
    requires fit { IsFit rules.now }
    requires sound { AreSound rules.now reader.old.nodes }
    ensures heard { HeardLines (S.left source.old) (S.left source.new) (lines_on rules.now reader.old)
        (λ lines. SaysTaken (taken rules.now reader.old lines) reader.new result) }
    ensures sound { AreSound rules.now reader.new.nodes }
    ensures cause { HasCause (S.faults source.old) (S.faults source.new) (IsUnread result) }
{
    for _count in 0..u64::MAX {
        match source.next_line(line) {
            Got::Line => reader.take_line(rules, line.text())?,
            Got::TooLong => return Err(NoStrategy::Faulty(reader.fault_of_long_line())),
            Got::End => return Ok(()),
            Got::Failed => return Err(NoStrategy::Unread),
        }
    }
    Err(NoStrategy::Faulty(StrategyFault::Memory))
}

/// Reads a strategy from the lines of the source, to their end or to the first faulty one.
///
/// # Errors
///
/// The fault of the first faulty line. `Unread` where the source failed; then nothing is known of the lines.
pub fn read_strategy<S: Source>(
    alloc: Global,
    rules: &Rules,
    source: &mut S,
) -> Result<Strategy, NoStrategy>
    requires { IsFit rules.now }
    ensures heard { HeardLines (S.left source.old) (S.left source.new) (lines_of_strategy rules.now)
        (λ lines. SaysStrategy (strategy_of rules.now lines) result) }
    ensures sound { IfOk result (λ s. AreSound rules.now s.nodes) }
    ensures cause { HasCause (S.faults source.old) (S.faults source.new) (IsUnread result) }
{
    let mut line = LineBuf::new(alloc)?;
    let mut reader = Reader::new(alloc);
    take_lines(rules, &mut reader, source, &mut line)?;
    Ok(reader.finish()?)
}

/// Reads a strategy without its first line, `strategy 1`, from the lines of the source, to their end or to the first
/// faulty one.
pub(crate) fn read_body<S: Source>(
    alloc: Global,
    rules: &Rules,
    source: &mut S,
    line: &mut LineBuf,
) -> Result<Strategy, NoStrategy>
    requires { IsFit rules.now }
    ensures heard { HeardLines (S.left source.old) (S.left source.new) (lines_of_body rules.now)
        (λ lines. SaysStrategy (body_of rules.now lines) result) }
    ensures sound { IfOk result (λ s. AreSound rules.now s.nodes) }
    ensures cause { HasCause (S.faults source.old) (S.faults source.new) (IsUnread result) }
{
    let mut reader = Reader::new(alloc);
    reader.take_line(rules, b"strategy 1")?;
    take_lines(rules, &mut reader, source, line)?;
    Ok(reader.finish()?)
}
