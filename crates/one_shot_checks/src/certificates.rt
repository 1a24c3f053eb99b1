//! Whether the certificate of the input holds in the game of the input.
ghost use Rattle.std.specs.Prelude.{◌≡◌, IfOk, codes};
ghost use Rattle.io_ports.specs.Cause.{HasCause};
ghost use Rattle.variant_rules.specs.Entries.{entries};
ghost use Rattle.game_text.specs.HeardLines.{HeardLines};
ghost use Rattle.one_shot_checks.specs.Certificates as Said;
ghost use Rattle.one_shot_checks.specs.CheckView.{States};
ghost use Rattle.one_shot_checks.specs.NoAnswerView.{Answers, IsUnheard};

use crate::{Fault, NoAnswer};
use cert_text::read_cert_lines;
use foundation::{Memory, Text};
use game_text::{Problem, Stipulation, read_problem};
use io_ports::Source;
use std::alloc::{AllocError, Global};
use stipulation::{Cert, CertVerdict, check_help, check_self};
use variant_ini::Sections;
use variant_rules::load;

/// A game with a stipulation, and a certificate for it.
#[derive(Drop)]
pub struct Stipulated {
    pub problem: Problem<Stipulation>,
    pub cert: Cert,
}

// What the input states, which is of a variant of these sections.
fn state<S: Source>(
    alloc: Global,
    sections: &Sections,
    source: &mut S,
) -> Result<Stipulated, NoAnswer<'static>>
    ensures heard { HeardLines (S.left source.old) (S.left source.new) (Said.lines_of_cert_check (entries sections.now))
        (λ lines. States (Said.stipulated_in (entries sections.now) lines) result) }
    ensures cause { HasCause (S.faults source.old) (S.faults source.new) (IsUnheard result) }
{
    let variants = load(alloc, sections)?;
    let problem: Problem<Stipulation> = read_problem(alloc, &variants, source)?;
    let cert = read_cert_lines(alloc, &problem.game, source)?;
    Ok(Stipulated { problem, cert })
}

// The verdict on a certificate.
fn verdict_on(alloc: Global, stated: &Stipulated) -> Result<CertVerdict, Memory>
    ensures { IfOk result (λ v. v ≡ Said.verdict_in stated.now) }
{
    let problem = &stated.problem;
    let moves = problem.goal.moves;
    if problem.goal.help {
        check_help(alloc, &problem.game, moves, &stated.cert)
    } else {
        check_self(alloc, &problem.game, moves, &stated.cert)
    }
}

fn holds(alloc: Global) -> Result<Text, AllocError>
    ensures { IfOk result (λ text. text ≡ codes "holds\n") }
{
    let items = b"holds\n".to_vec(alloc)?;
    Ok(Text { items })
}

// `holds`, or the failure of the certificate.
fn print(alloc: Global, verdict: CertVerdict) -> Result<Text, NoAnswer<'static>>
    ensures prints { Answers result (Said.SaysVerdict verdict) }
    ensures heard { ¬ (IsUnheard result) }
{
    match verdict {
        CertVerdict::Holds => Ok(holds(alloc)?),
        failure => Err(NoAnswer::Fault(Fault::CertFailure(failure))),
    }
}

/// The text of `stipulate check`, `holds`: the certificate that the input states after a problem holds in the problem's
/// game, which is of a variant of these sections.
///
/// # Errors
///
/// The first fault of the problem or of the certificate's text, or else the first failure of the certificate; or what
/// cut the run short.
pub fn cert_check_text<S: Source>(
    alloc: Global,
    sections: &Sections,
    source: &mut S,
) -> Result<Text, NoAnswer<'static>>
    ensures heard { HeardLines (S.left source.old) (S.left source.new) (Said.lines_of_cert_check (entries sections.now))
        (λ lines. Answers result (Said.SaysCertCheck (entries sections.now) lines)) }
    ensures cause { HasCause (S.faults source.old) (S.faults source.new) (IsUnheard result) }
{
    let stated = state(alloc, sections, source)?;
    let verdict = verdict_on(alloc, &stated)?;
    print(alloc, verdict)
}
