//! A whole suite: its lines in, its report out.
ghost use Rattle.std.specs.Prelude.{◌≡◌, ◌<◌, ◌≤◌, IfOk};
ghost use Rattle.io_ports.specs.Cause.{HasCause};
ghost use Rattle.game_text.specs.HeardLines.{HeardLines};
ghost use Rattle.game_text.specs.ReadView.{IsUnread, Tells};
ghost use Rattle.suite.specs.Report.{report_of, suite_report};
ghost use Rattle.suite.specs.Suite.{IsListed, lines_of_suite};

use crate::fault::NoSuite;
use crate::reading::{Suite, read_suite};
use crate::report::write_report;
use crate::solving::solve_all;
use foundation::{Memory, Text};
use io_ports::{Gate, Source};
use std::alloc::Global;
use std::sync::Wait;
use std::thread::Threads;
use variant_rules::Variants;

/// The report on the problems, by N workers.
fn report_on<R: Threads + Wait + Sync, G: Gate + Sync>(
    rt: &R,
    alloc: Global,
    suite: &Suite,
    workers: u32,
    gate: &G,
) -> Result<Text, Memory>
    requires listed { IsListed suite.now }
    requires workers { (0 < workers) × (workers ≤ 64) }
    ensures { IfOk result (λ text. text ≡ report_of suite.now) }
{
    let solved = solve_all(rt, alloc, suite.problems(), workers, gate)?;
    write_report(alloc, suite.lines(), solved.answers())
}

/// Reads the problems of a suite, solves them by 1 to 64 workers, and reports on them in the order of their lines.
///
/// # Errors
///
/// The first fault of the first faulty line, after which no line is taken; `Unread` where the source failed; `Memory`.
pub fn solve_suite<R: Threads + Wait + Sync, S: Source, G: Gate + Sync>(
    rt: &R,
    alloc: Global,
    variants: &Variants,
    source: &mut S,
    workers: u32,
    gate: &G,
) -> Result<Text, NoSuite>
    requires workers { (0 < workers) × (workers ≤ 64) }
    ensures heard { HeardLines (S.left source.old) (S.left source.new) (lines_of_suite variants.now)
        (λ lines. Tells (suite_report variants.now lines) result) }
    ensures cause { HasCause (S.faults source.old) (S.faults source.new) (IsUnread result) }
{
    let suite = read_suite(alloc, variants, source)?;
    let text = report_on(rt, alloc, &suite, workers, gate)?;
    Ok(text)
}
