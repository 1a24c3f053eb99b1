//! The report on a suite.
ghost use Rattle.std.specs.Prelude.{◌≡◌, ◌++◌, IfOk, OnOk, length, count_by, is_some};
ghost use Rattle.suite.specs.declared.problem.Answer.{Answer};
ghost use Rattle.suite.specs.Leasts.{leasts};
ghost use Rattle.suite.specs.Report as Said;

use crate::problem::Answer;
use foundation::{Memory, Text};
use std::alloc::{AllocError, Global};

// The text of a problem that is won within N moves, or is not won.
fn told_of(alloc: Global, line: u64, least: Option<u16>) -> Result<Vec<u8>, AllocError>
    ensures { IfOk result (λ text. text.items ≡ Said.told_of line least) }
{
    match least {
        Some(k) => {
            let mut text = format!(in alloc; "{line} mate ")?.into_bytes();
            text.extend_from_slice(format!(in alloc; "{k}")?.as_bytes())?;
            text.push(b'\n')?;
            Ok(text)
        }
        None => Ok(format!(in alloc; "{line} none\n")?.into_bytes()),
    }
}

fn push_line(
    alloc: Global,
    text: &mut Vec<u8>,
    line: u64,
    least: Option<u16>,
) -> Result<(), AllocError>
    ensures { OnOk result (text.new.items ≡ text.old.items ++ Said.told_of line least) }
{
    let told = told_of(alloc, line, least)?;
    text.extend_from_slice(&told)
}

fn push_lines(
    alloc: Global,
    text: &mut Vec<u8>,
    lines: &[u64],
    answers: &[Answer],
) -> Result<(), AllocError>
    requires { length answers.now ≡ length lines.now }
    ensures { OnOk result (text.new.items ≡ text.old.items ++ Said.told_of_all lines.now (leasts answers.now)) }
{
    for i in 0..lines.len() {
        push_line(alloc, text, lines[i], answers[i].least)?;
    }
    Ok(())
}

fn count_won(answers: &[Answer]) -> usize
    ensures { result ≡ count_by (λ (a : Answer). is_some a.least) answers.now }
{
    let mut won = 0;
    for answer in answers {
        if answer.least.is_some() {
            won += 1;
        }
    }
    won
}

fn solved_of(answers: &[Answer]) -> usize
    ensures { result ≡ Said.solved_of (leasts answers.now) }
{
    count_won(answers)
}

/// A line for each problem, by the numbers of their lines, and how many of them are won.
#[tactic(auto, unfolding(crate::specs::Report::report))]
pub fn write_report(alloc: Global, lines: &[u64], answers: &[Answer]) -> Result<Text, Memory>
    requires { length answers.now ≡ length lines.now }
    ensures { IfOk result (λ text. text ≡ Said.report lines.now (leasts answers.now)) }
{
    let (solved, all) = (solved_of(answers), answers.len());
    let sum = format!(in alloc; "solved {solved} of {all}\n")?;
    let mut items = Vec::new(alloc);
    push_lines(alloc, &mut items, lines, answers)?;
    items.extend_from_slice(sum.as_bytes())?;
    Ok(Text { items })
}
