//! Searches for selfmates and helpmates.
ghost use Rattle.std.specs.Prelude.{◌≡◌, ◌≤◌, false, true, None, Some, length, List, IfOk, IfSome, MatchOption};
ghost use Rattle.game_play.specs.Played.{story};
ghost use Rattle.stipulation.specs.declared.cert.Step.{Step};
ghost use Rattle.stipulation.specs.declared.verdict.CertVerdict.TheVariants as Said;
ghost use Rattle.stipulation.specs.AtTask as At;
ghost use Rattle.stipulation.specs.Searches as Searches;
ghost use Rattle.stipulation.specs.Stipulations.{self_wins, HelpWins};
ghost use Rattle.stipulation.specs.Verdicts as Verdicts;

use crate::cert::{Cert, Steps};
use crate::line::Line;
use crate::reach_facts::ReachFacts;
use crate::task::Task;
use game_play::Game;
use rules_model::Memory;
use std::alloc::Global;

impl Task<'_> {
    /// The certificate of what is aimed at within N plies of the game.
    fn find(
        &self,
        alloc: Global,
        plies: u16,
        facts: &mut ReachFacts,
    ) -> Result<Option<Cert>, Memory>
        requires few { plies ≤ 12 }
        requires task { facts.old ≡ self.now }
        ensures found { let found = Searches.found (At.games self.now) plies 0 (story self.now.game.now) in
            IfOk result (λ answer. MatchOption answer (found ≡ None) (λ cert. found ≡ Some cert.steps)) }
        ensures task { facts.new ≡ facts.old }
    {
        let mut line = Line::new(alloc);
        let mut steps = Steps {
            items: Vec::new(alloc),
        };
        if self.search(alloc, &mut line, plies, &mut steps, facts)? {
            Ok(Some(Cert { steps }))
        } else {
            Ok(None)
        }
    }

    /// Whether the game itself is ended.
    fn is_ended(&self, alloc: Global) -> bool
        ensures { result ≡ Searches.is_ended (At.games self.now) (story self.now.game.now) }
    {
        let line = Line::new(alloc);
        self.end(&line).is_some()
    }
}

/// A certificate of a selfmate of the side that is to move in the game, within n moves of its own, exactly where there
/// is one; else none. n is from 1 to 6. It is the one that a plain search finds, by the first move in order that does,
/// and need not be the shortest. `Memory` where there is none.
pub fn self_mate(alloc: Global, game: &Game, n: u16) -> Result<Option<Cert>, Memory>
    requires least { 1 ≤ n }
    requires most { n ≤ 6 }
    ensures is { IfOk result
        (λ answer. Searches.steps_of answer ≡ Searches.self_found game.now.rules n (story game.now)) }
    ensures found { IfOk result (λ answer. MatchOption answer
        (self_wins game.now.rules n (story game.now) (story game.now).last.side ≡ false)
        (λ cert. Verdicts.self_verdict game.now.rules n (story game.now) cert.steps ≡ Said.Holds)) }
    ensures wins { IfOk result (λ answer. IfSome answer (λ _.
        self_wins game.now.rules n (story game.now) (story game.now).last.side ≡ true)) }
{
    let task = Task { game, help: false };
    let mut facts = ReachFacts::new(alloc, &task)?;
    task.find(alloc, 2 * n, &mut facts)
}

/// A certificate of a helpmate of least length within n moves of each side, from the side that is to move in the game,
/// exactly where there is one; else none. n is from 1 to 6. It is the first one in the order of its moves. `Memory`
/// where there is none.
pub fn help_mate(alloc: Global, game: &Game, n: u16) -> Result<Option<Cert>, Memory>
    requires least { 1 ≤ n }
    requires most { n ≤ 6 }
    ensures is { IfOk result
        (λ answer. Searches.steps_of answer ≡ Searches.help_found game.now.rules n (story game.now)) }
    ensures found { IfOk result (λ answer. MatchOption answer
        (HelpWins game.now.rules n (story game.now) → ⊥)
        (λ cert. Verdicts.help_verdict game.now.rules n (story game.now) cert.steps ≡ Said.Holds)) }
    ensures wins { IfOk result (λ answer. IfSome answer (λ _. HelpWins game.now.rules n (story game.now))) }
    ensures shortest { IfOk result (λ answer. IfSome answer (λ cert. (steps : List Step) →
        Verdicts.help_verdict game.now.rules n (story game.now) steps ≡ Said.Holds →
        length cert.steps ≤ length steps)) }
{
    let task = Task { game, help: true };
    if task.is_ended(alloc) {
        return Ok(None);
    }
    let mut facts = ReachFacts::new(alloc, &task)?;
    for plies in 1..2 * n + 1 {
        if let Some(cert) = task.find(alloc, plies, &mut facts)? {
            return Ok(Some(cert));
        }
    }
    Ok(None)
}
