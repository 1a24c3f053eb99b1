//! Reads a suite from a source.
ghost use Rattle.std.specs.Prelude.{◌≡◌, ◌≤◌, ◌++◌, ◌∷◌, [], nat_lt, length, IfOk, OnOk};
ghost use Rattle.game_text.specs.declared.unmade.Unmade.TheVariants as NoSuite;
ghost use Rattle.io_ports.specs.Cause.{HasCause};
ghost use Rattle.variant_rules.specs.Entries.{found};
ghost use Rattle.variant_rules.specs.Playable.{IsPlayable};
ghost use Rattle.game_text.specs.GameText as GameText;
ghost use Rattle.game_text.specs.HeardLines.{HeardLines};
ghost use Rattle.game_text.specs.ReadView.{IsUnread, Plays as Adds, Says, Tells};
ghost use Rattle.suite.specs.Problems.{IsFair};
ghost use Rattle.suite.specs.ReadView.{Reads};
ghost use Rattle.suite.specs.Suite as Said;
ghost use Rattle.suite.specs.Suite.{IsListed};

use crate::fault::{NoSuite, SuiteFault};
use crate::problem::Problem;
use crate::row::{Row, is_skipped, row_of};
use foundation::Memory;
use game_text::{copy_of, position_of};
use io_ports::{Got, LineBuf, Source};
use mate_search::is_counted;
use rules_model::{Rules, copy_of_rules};
use std::alloc::{AllocError, Global};
use std::marker::Model;
use variant_model::SectionFault;
use variant_rules::{Found, Variants};

/// The most problems of a suite.
pub const MOST_PROBLEMS: usize = 1000;

/// Problems in the order of their lines, and the numbers of these lines.
#[derive(Drop)]
pub struct Suite {
    lines: Vec<u64>,
    problems: Vec<Problem>,
}

impl Model for Suite {
    ghost use Rattle.suite.specs.Suite.{Listed};

    ghost Value = { Listed };

    ghost view = { λ s. record { lines = s.lines.items; problems = s.problems.items } };
}

impl Suite {
    /// The number of the line of each problem.
    pub fn lines(&self) -> &[u64]
        ensures { result.now ≡ self.now.lines }
    {
        self.lines.as_slice()
    }

    /// The problems.
    pub fn problems(&self) -> &[Problem]
        ensures { result.now ≡ self.now.problems }
    {
        self.problems.as_slice()
    }
}

fn nothing_listed(alloc: Global) -> Suite
    ensures { result ≡ Said.nothing_listed }
{
    Suite {
        lines: Vec::new(alloc),
        problems: Vec::new(alloc),
    }
}

// The problem of a line whose variant has these rules.
fn problem_from(line: u64, rules: &Rules, row: &Row<'_>) -> Result<Problem, NoSuite>
    requires playable { IsPlayable rules.now }
    requires some { 1 ≤ row.now.moves }
    requires few { row.now.moves ≤ 20 }
    ensures reads { Reads (Said.problem_from line rules.now row.now.moves
        (GameText.position_of rules.now row.now.position)) result }
    ensures fair { IfOk result IsFair }
{
    let position = match position_of(rules, row.position) {
        Ok(position) => position,
        Err(why) => return Err(NoSuite::Faulty(SuiteFault::BadPosition { line, why })),
    };
    if is_counted(rules, row.moves, &position) {
        return Err(NoSuite::Faulty(SuiteFault::NearCount(line)));
    }
    Ok(Problem {
        rules: copy_of_rules(rules),
        position,
        n: row.moves,
    })
}

fn refused(alloc: Global, line: u64, why: &SectionFault) -> Result<NoSuite, AllocError>
    ensures { IfOk result (λ no_suite. no_suite ≡ NoSuite.Faulty (SuiteFault.RefusedVariant line why.now)) }
{
    let why = copy_of(alloc, why)?;
    Ok(NoSuite::Faulty(SuiteFault::RefusedVariant { line, why }))
}

// The problem of a line that has the form.
fn problem_by(
    alloc: Global,
    variants: &Variants,
    line: u64,
    row: &Row<'_>,
) -> Result<Problem, NoSuite>
    requires some { 1 ≤ row.now.moves }
    requires few { row.now.moves ≤ 20 }
    ensures reads { Reads (Said.problem_by line row.now (found variants.now row.now.name)) result }
    ensures fair { IfOk result IsFair }
{
    match variants.find(row.name) {
        Found::Rules(rules) => problem_from(line, rules, row),
        Found::Refused(why) => Err(refused(alloc, line, why)?),
        Found::Unknown => Err(NoSuite::Faulty(SuiteFault::UnknownVariant(line))),
    }
}

// The problem that the text of a line says.
#[tactic(auto, unfolding(crate::specs::Suite::problem_of))]
fn problem_of(
    alloc: Global,
    variants: &Variants,
    line: u64,
    text: &[u8],
) -> Result<Problem, NoSuite>
    ensures reads { Reads (Said.problem_of variants.now line text.now) result }
    ensures fair { IfOk result IsFair }
{
    match row_of(text) {
        Some(row) => problem_by(alloc, variants, line, &row),
        None => Err(NoSuite::Faulty(SuiteFault::BadLine(line))),
    }
}

fn append(suite: &mut Suite, line: u64, problem: Problem) -> Result<(), Memory>
    ensures lines { OnOk result (suite.new.lines ≡ suite.old.lines ++ line ∷ []) }
    ensures problems { OnOk result (suite.new.problems ≡ suite.old.problems ++ problem ∷ []) }
{
    suite.lines.push(line)?;
    suite.problems.push(problem)?;
    Ok(())
}

fn has_room(suite: &Suite) -> bool
    ensures { result ≡ nat_lt (length suite.now.problems) Said.most_problems }
{
    suite.problems.len() < MOST_PROBLEMS
}

// Adds a problem, where there is room for it.
fn add(suite: &mut Suite, line: u64, problem: Problem) -> Result<(), NoSuite>
    requires listed { IsListed suite.old }
    requires fair { IsFair problem }
    ensures adds { Adds (Said.with_problem suite.old line (Ok problem)) suite.new result }
    ensures listed { OnOk result (IsListed suite.new) }
{
    if has_room(suite) {
        append(suite, line, problem)?;
        Ok(())
    } else {
        Err(NoSuite::Faulty(SuiteFault::TooMany(line)))
    }
}

// Adds the problem of the line, where it is not skipped.
fn add_line(
    alloc: Global,
    variants: &Variants,
    suite: &mut Suite,
    line: u64,
    text: &[u8],
) -> Result<(), NoSuite>
    requires listed { IsListed suite.old }
    ensures adds { Adds (Said.with_line variants.now suite.old line text.now) suite.new result }
    ensures listed { OnOk result (IsListed suite.new) }
{
    if is_skipped(text) {
        return Ok(());
    }
    let problem = problem_of(alloc, variants, line, text)?;
    add(suite, line, problem)
}

// Adds the problems of the lines, up to the end or to the first faulty line.
fn add_lines<S: Source>(
    alloc: Global,
    variants: &Variants,
    source: &mut S,
    suite: &mut Suite,
    line: &mut LineBuf,
) -> Result<(), NoSuite>
    requires listed { IsListed suite.old }
    ensures heard { HeardLines (S.left source.old) (S.left source.new) (Said.lines_on variants.now 1 suite.old)
        (λ lines. Says (Said.suite_on variants.now 1 suite.old lines) suite.new result) }
    ensures listed { OnOk result (IsListed suite.new) }
    ensures cause { HasCause (S.faults source.old) (S.faults source.new) (IsUnread result) }
{
    for number in 1..u64::MAX {
        match source.next_line(line) {
            Got::Line => add_line(alloc, variants, suite, number, line.text())?,
            Got::TooLong => return Err(NoSuite::Faulty(SuiteFault::LineTooLong(number))),
            Got::End => return Ok(()),
            Got::Failed => return Err(NoSuite::Unread),
        }
    }
    Err(NoSuite::Memory)
}

/// Reads the problems of a suite to its end or to its first faulty line, in one pass. A line has the name of a variant,
/// a number of moves from 1 to 20 and a position, `startpos` or a FEN, separated by single spaces; empty lines and
/// those that begin with `#` are skipped.
///
/// # Errors
///
/// The first fault of the first faulty line, after which no line is taken; `Unread` where the source failed; `Memory`.
pub fn read_suite<S: Source>(
    alloc: Global,
    variants: &Variants,
    source: &mut S,
) -> Result<Suite, NoSuite>
    ensures heard { HeardLines (S.left source.old) (S.left source.new) (Said.lines_of_suite variants.now)
        (λ lines. Tells (Said.suite_of variants.now lines) result) }
    ensures listed { IfOk result IsListed }
    ensures cause { HasCause (S.faults source.old) (S.faults source.new) (IsUnread result) }
{
    let mut line = LineBuf::new(alloc)?;
    let mut suite = nothing_listed(alloc);
    add_lines(alloc, variants, source, &mut suite, &mut line)?;
    Ok(suite)
}
