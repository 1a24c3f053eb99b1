//! Workers go over the moves of a race.
ghost use Rattle.std.specs.Prelude.{◌≡◌, ◌+◌, ◌≤◌, ◌++◌, ◌∷◌, [], sum_by, OnOk, OnErr, IsErrOf};
ghost use Rattle.std.specs.List.{All};
ghost use Rattle.foundation.specs.Member.{Member};
ghost use Rattle.game_line.specs.Lined.{legal_in};
ghost use Rattle.negamax.specs.Trials.{Entered};
ghost use Rattle.watching.specs.declared.halt.Halt.{Halt};
ghost use Rattle.alpha_beta.specs.Workers.{AreTrueFacts, IsPlan, IsSetAside, lines_after, lines_in};

use crate::jobs::Job;
use crate::plan::Plan;
use crate::shared::MoveToFinish;
use foundation::Memory;
use game_line::Line;
use io_ports::Gate;
use negamax::{Fact, SearchState, search_move};
use rules_model::Move;
use watching::{Halt, Helper, Round, Watch, WorkWatch};

/// A move that another worker had taken, by its place.
#[derive(Clone, Copy)]
pub(crate) struct Other {
    pub place: usize,
    pub chosen: Move,
}

fn remember(facts: &mut Vec<Fact>, fact: Fact) -> Result<(), Memory>
    ensures ok { OnOk result (facts.new.items ≡ facts.old.items ++ fact ∷ []) }
    ensures err { OnErr result (facts.new.items ≡ facts.old.items) }
{
    facts.push(fact)?;
    Ok(())
}

fn leave(others: &mut Vec<Other>, place: usize, chosen: &Move) -> Result<(), Memory>
    ensures ok { OnOk result (IsSetAside others.old.items others.new.items place chosen.now) }
{
    others.push(Other {
        place,
        chosen: *chosen,
    })?;
    Ok(())
}

/// Searches one move of the race, and tells the others that it is finished.
fn take<W: Watch, G: Gate>(
    plan: &Plan<G>,
    number: u32,
    line: &mut Line,
    state: &mut SearchState,
    place: usize,
    chosen: &Move,
    facts: &mut Vec<Fact>,
    watch: &mut W,
) -> Result<(), Halt>
    requires plan { IsPlan plan.now }
    requires line { line.old ≡ plan.now.line.now }
    requires legal { Member chosen.now (legal_in plan.now.line.now) }
    requires known { AreTrueFacts plan.now facts.old.items }
    ensures known { AreTrueFacts plan.now facts.new.items }
    ensures gone { OnOk result (W.gone watch.old watch.new (lines_after plan.now chosen.now)) }
    ensures ended { (why : Halt) → IsErrOf result why
        → W.ended watch.old watch.new (lines_after plan.now chosen.now) why }
    ensures kept { OnOk result (line.new ≡ plan.now.line.now) }
{
    plan.team.gate.pass(number, facts.len() as u64);
    let fact = search_move(
        line,
        state,
        watch,
        plan.depth,
        plan.ply,
        chosen,
        plan.window,
    )?;
    plan.shared.finish(place);
    remember(facts, fact)?;
    Ok(())
}

/// Takes the moves that are free, and lists the others. What is shared may hold anything.
fn take_free<W: Watch, G: Gate>(
    plan: &Plan<G>,
    number: u32,
    line: &mut Line,
    state: &mut SearchState,
    facts: &mut Vec<Fact>,
    others: &mut Vec<Other>,
    watch: &mut W,
) -> Result<(), Halt>
    requires plan { IsPlan plan.now }
    requires line { line.old ≡ plan.now.line.now }
    requires known { AreTrueFacts plan.now facts.old.items }
    requires none { others.old.items ≡ [] }
    ensures known { AreTrueFacts plan.now facts.new.items }
    ensures legal { OnOk result (All (λ o. Member o.chosen (legal_in plan.now.line.now)) others.new.items) }
    ensures gone { OnOk result (Entered W.gone watch.old watch.new (λ o. lines_after plan.now o.chosen)
        others.new.items (lines_in plan.now)) }
    ensures ended { (why : Halt) → IsErrOf result why → W.ended watch.old watch.new (lines_in plan.now) why }
    ensures kept { OnOk result (line.new ≡ plan.now.line.now) }
{
    for i in 0..plan.moves.len() {
        let chosen = &plan.moves[i];
        if plan.shared.takes(i, Round::Free) {
            take(plan, number, line, state, i, chosen, facts, watch)?;
        } else {
            leave(others, i, chosen)?;
        }
    }
    Ok(())
}

/// Searches a move that another worker has begun, unless that one finishes it meanwhile: then its fact serves.
fn repeat<'g, W: Watch, G: Gate>(
    plan: &Plan<'_, 'g, G>,
    line: &mut Line<'g>,
    state: &mut SearchState,
    other: &Other,
    facts: &mut Vec<Fact>,
    watch: &mut W,
) -> Result<(), Halt>
    requires plan { IsPlan plan.now }
    requires line { line.old ≡ plan.now.line.now }
    requires legal { Member other.now.chosen (legal_in plan.now.line.now) }
    requires known { AreTrueFacts plan.now facts.old.items }
    ensures known { AreTrueFacts plan.now facts.new.items }
    ensures gone { OnOk result (W.gone watch.old watch.new (lines_after plan.now other.now.chosen)) }
    ensures ended { (why : Halt) → IsErrOf result why
        → W.ended watch.old watch.new (lines_after plan.now other.now.chosen) why }
    ensures kept { OnOk result (line.new ≡ plan.now.line.now) }
{
    let work = MoveToFinish {
        shared: plan.shared,
        place: other.place,
    };
    let mut racer = WorkWatch {
        watch,
        work: &work,
        told: false,
    };
    let end = take(
        plan,
        0,
        line,
        state,
        other.place,
        &other.chosen,
        facts,
        &mut racer,
    );
    if racer.told {
        *line = plan.line.copied(plan.team.alloc)?;
        return Ok(());
    }
    end
}

/// Takes those of the moves that are not finished. None of them did this worker take before.
fn take_unfinished<'g, W: Watch, G: Gate>(
    plan: &Plan<'_, 'g, G>,
    line: &mut Line<'g>,
    state: &mut SearchState,
    facts: &mut Vec<Fact>,
    others: &[Other],
    watch: &mut W,
) -> Result<(), Halt>
    requires plan { IsPlan plan.now }
    requires line { line.old ≡ plan.now.line.now }
    requires legal { All (λ o. Member o.chosen (legal_in plan.now.line.now)) others.now }
    requires known { AreTrueFacts plan.now facts.old.items }
    ensures known { AreTrueFacts plan.now facts.new.items }
    ensures gone { OnOk result
        (W.gone watch.old watch.new (sum_by (λ o. lines_after plan.now o.chosen) others.now)) }
    ensures ended { (why : Halt) → IsErrOf result why
        → W.ended watch.old watch.new (sum_by (λ o. lines_after plan.now o.chosen) others.now) why }
    ensures kept { OnOk result (line.new ≡ plan.now.line.now) }
{
    for other in others {
        if plan.shared.takes(other.place, Round::Unfinished) {
            repeat(plan, line, state, other, facts, watch)?;
        }
    }
    Ok(())
}

/// Takes the moves that are free, and then those that the others have not finished: so it waits for nobody. It takes
/// each move at most once.
pub(crate) fn take_all<'g, W: Watch, G: Gate>(
    plan: &Plan<'_, 'g, G>,
    line: &mut Line<'g>,
    state: &mut SearchState,
    facts: &mut Vec<Fact>,
    watch: &mut W,
) -> Result<(), Halt>
    requires plan { IsPlan plan.now }
    requires line { line.old ≡ plan.now.line.now }
    requires known { AreTrueFacts plan.now facts.old.items }
    ensures known { AreTrueFacts plan.now facts.new.items }
    ensures gone { OnOk result (W.gone watch.old watch.new (lines_in plan.now)) }
    ensures ended { (why : Halt) → IsErrOf result why → W.ended watch.old watch.new (lines_in plan.now) why }
    ensures kept { OnOk result (line.new ≡ plan.now.line.now) }
{
    let mut others = Vec::new(plan.team.alloc);
    take_free(plan, 0, line, state, facts, &mut others, watch)?;
    take_unfinished(plan, line, state, facts, others.as_slice(), watch)
}

/// Takes the moves that are free, with a line of its own.
fn take_some<W: Watch, G: Gate>(
    plan: &Plan<G>,
    number: u32,
    state: &mut SearchState,
    facts: &mut Vec<Fact>,
    watch: &mut W,
) -> Result<(), Halt>
    requires plan { IsPlan plan.now }
    requires known { AreTrueFacts plan.now facts.old.items }
    ensures known { AreTrueFacts plan.now facts.new.items }
    ensures gone { OnOk result (W.gone watch.old watch.new (lines_in plan.now)) }
    ensures ended { (why : Halt) → IsErrOf result why → W.ended watch.old watch.new (lines_in plan.now) why }
{
    let mut line = plan.line.copied(plan.team.alloc)?;
    let mut others = Vec::new(plan.team.alloc);
    take_free(plan, number, &mut line, state, facts, &mut others, watch)
}

/// What a worker beside the first does. Where it reaches its quota, finds no memory or is told to stop, what it found
/// stays.
pub(crate) fn help<G: Gate>(plan: &Plan<G>, number: u32, job: &mut Job)
    requires plan { IsPlan plan.now }
    ensures known { AreTrueFacts plan.now job.new.facts.items }
    ensures nodes { job.new.nodes ≤ job.old.nodes + lines_in plan.now }
{
    job.facts.clear();
    if !plan.shared.has_free() || job.prepare(plan.team.alloc).is_err() {
        return;
    }
    let Some(state) = &mut job.state else {
        return;
    };
    let mut watch = Helper {
        flag: &plan.shared.flag,
        quota: plan.team.quota,
        nodes: job.nodes,
    };
    let _ = take_some(plan, number, state, &mut job.facts, &mut watch);
    job.nodes = watch.nodes();
}
