//! The report on the mate problems of the input.
ghost use Rattle.std.specs.Prelude.{◌≤◌};
ghost use Rattle.io_ports.specs.Cause.{HasCause};
ghost use Rattle.variant_rules.specs.Entries.{entries};
ghost use Rattle.game_text.specs.HeardLines.{HeardLines};
ghost use Rattle.suite.specs.Suite.{lines_of_suite};
ghost use Rattle.one_shot_checks.specs.NoAnswerView.{Answers, IsUnheard};
ghost use Rattle.one_shots.specs.Suites.{SaysSuite};

use foundation::Text;
use io_ports::{Gate, Source};
use one_shot_checks::NoAnswer;
use std::alloc::Global;
use std::sync::Wait;
use std::thread::Threads;
use suite::solve_suite;
use variant_ini::Sections;
use variant_rules::load;

/// The text of `suite`: the report on the problems of the input, which are of variants of these sections, by this
/// number of workers.
///
/// # Errors
///
/// The first fault of the input; or the source failed, or there was no memory.
pub(crate) fn suite_text<R: Threads + Wait + Sync, S: Source, G: Gate + Sync>(
    rt: &R,
    alloc: Global,
    sections: &Sections,
    source: &mut S,
    workers: u32,
    gate: &G,
) -> Result<Text, NoAnswer<'static>>
    requires workers { (1 ≤ workers) × (workers ≤ 64) }
    ensures heard { HeardLines (S.left source.old) (S.left source.new) (lines_of_suite (entries sections.now))
        (λ lines. Answers result (SaysSuite (entries sections.now) lines)) }
    ensures cause { HasCause (S.faults source.old) (S.faults source.new) (IsUnheard result) }
{
    let variants = load(alloc, sections)?;
    Ok(solve_suite(rt, alloc, &variants, source, workers, gate)?)
}
