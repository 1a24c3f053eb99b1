//! How the engine thinks and moves.
ghost use Rattle.std.specs.Prelude.{◌≡◌, ◌<◌, true, IfOk, OnErr, OnOk, IsErrOf, Some, length, not};
ghost use Rattle.std.specs.Io.KnownBytes.{Appends, IsAtEnd};
ghost use Rattle.foundation.specs.Member.{Member};
ghost use Rattle.foundation.specs.Tests.{is_nil};
ghost use Rattle.game_play.specs.Played.{legal_in};
ghost use Rattle.game_text.specs.Playing.{most_plies};
ghost use Rattle.io_ports.specs.Cause.{HasCause, Rose};
ghost use Rattle.io_ports.specs.Sink.{AppendsFront};
ghost use Rattle.io_ports.specs.Trace.{Moves};
ghost use Rattle.rules_model.specs.declared.moves.Move as moves;
ghost use Rattle.session_model.specs.CecpState as CecpState;
ghost use Rattle.session_model.specs.Mates.{mover};
ghost use Rattle.session_model.specs.Lines.{Causes};
ghost use Rattle.cecp_front.specs.Thought.{BrokeSeeking, IsFirst, Sought, Thought, Unthought, is_dropped, move_text, style_of};

use crate::session::CecpSession;
use crate::texts::move_lines;
use crate::{depth_for, gives_up, time_for};
use game_play::MOST_PLIES;
use io_ports::{Clock, Dialect, Gate, Got, LineBuf, SearchFault, Sink, Source};
use legality::{any_legal, legal_moves};
use rules_model::Move;
use session_model::next_of;
use std::alloc::Global;
use std::sync::Wait;
use std::thread::Threads;
use thinking::{Depths, Style, Task, begin, iterative_deepening};
use watching::{Cut, say};

// Whether the line that cut the search gives it up.
fn is_dropped(why: Option<Cut>, line: &LineBuf) -> bool
    ensures { result ≡ is_dropped why line.now }
{
    match why {
        Some(Cut::Line) => gives_up(line.text()),
        Some(Cut::End) | Some(Cut::Quota(_)) | Some(Cut::Deadline(_)) | None => false,
    }
}

// A line for each depth, or none.
fn style_of(posts: bool) -> Style
    ensures { result ≡ style_of posts }
{
    if posts { Style::Post } else { Style::Silent }
}

impl CecpSession {
    /// Whether the engine thinks: it plays the side to move, no move ended the game, some move is legal, and there is
    /// room for one.
    #[tactic(auto, unfolding(session_model::specs::CecpState::thinks))]
    pub(crate) fn thinks(&self) -> bool
        ensures { result ≡ CecpState.thinks self.now }
    {
        self.plays_mover()
            && !self.is_over
            && self.can_move()
            && self.game.moves().len() < MOST_PLIES
    }

    // Whether the engine plays the side to move.
    fn plays_mover(&self) -> bool
        ensures { result ≡ CecpState.is_turn self.now.plays (mover self.now.game) }
    {
        match self.plays {
            Some(side) => side == self.mover(),
            None => false,
        }
    }

    // Whether some move is legal.
    #[tactic(auto, unfolding(rules_model::specs::Legal::is_stuck))]
    fn can_move(&self) -> bool
        ensures { result ≡ not (is_nil (legal_in self.now.game)) }
    {
        self.game.prove_played();
        any_legal(self.game.rules(), self.game.tables(), self.game.position())
    }

    // Plays a legal move, and writes it, and the result where it ends the game.
    fn make_move<K: Sink>(
        &mut self,
        alloc: Global,
        sink: &mut K,
        m: &Move,
    ) -> Result<(), SearchFault>
        requires legal { Member m.now (legal_in self.old.game) }
        requires room { length self.old.game.moves < most_plies }
        ensures made { OnOk result (self.new ≡ (CecpState.played self.old m.now).state) }
        ensures wrote { OnOk result (Appends (K.taken sink.old) (K.taken sink.new) (move_text self.old m.now)) }
        ensures part { OnErr result (AppendsFront (K.taken sink.old) (K.taken sink.new) (move_text self.old m.now)) }
        ensures read { ¬ IsErrOf result SearchFault.ReadFault }
        ensures cause { HasCause (K.faults sink.old) (K.faults sink.new) (IsErrOf result SearchFault.WriteFault) }
    {
        self.play(m)?;
        let outcome = self.close();
        let text = move_lines(alloc, m, outcome)?;
        say(sink, text.items.as_slice())
    }

    // Searches depth after depth, all legal moves being root moves, and posts a line for each where that is on.
    fn seek<R, S, K, C, G>(
        &mut self,
        rt: &R,
        alloc: Global,
        source: &mut S,
        sink: &mut K,
        clock: &mut C,
        gate: &G,
        line: &mut LineBuf,
    ) -> Result<Depths, SearchFault>
    where
        R: Threads + Wait + Sync,
        S: Source,
        K: Sink,
        C: Clock,
        G: Gate + Sync,
        requires thinks { CecpState.thinks self.old ≡ true }
        ensures sought { IfOk result (λ depths. (first : moves.Move) → IsFirst self.old first → Sought
            (Moves S.left K.taken C.given C.count C.last source.old source.new sink.old sink.new clock.old clock.new)
            (S.owed source.old) (S.owed source.new) self.old first depths.best line.new depths.why) }
        ensures broke { OnErr result (BrokeSeeking
            (Moves S.left K.taken C.given C.count C.last source.old source.new sink.old sink.new clock.old clock.new)
            self.old) }
        ensures same { self.new ≡ self.old }
        ensures end { IfOk result (λ depths. depths.why ≡ Some Cut.End → IsAtEnd (S.left source.new)) }
        ensures causes { Causes (S.faults source.old) (S.faults source.new) (K.faults sink.old) (K.faults sink.new)
            (IsErrOf result) }
    {
        self.game.prove_played();
        let legal = legal_moves(
            alloc,
            self.game.rules(),
            self.game.tables(),
            self.game.position(),
        )?;
        let time = time_for(self.st, self.level, self.time);
        let task = Task {
            game: &self.game,
            roots: legal.items.as_slice(),
            all: true,
            depths: depth_for(time, self.sd),
            share: None,
            time,
        };
        let start = begin(clock, time);
        iterative_deepening(
            rt,
            alloc,
            &mut self.engine,
            &task,
            style_of(self.posts),
            start,
            source,
            sink,
            clock,
            gate,
            Dialect::Cecp,
            line,
        )
    }

    /// Thinks and moves, unless the line that cut the search gives it up, and takes the next line.
    pub(crate) fn think<R, S, K, C, G>(
        &mut self,
        rt: &R,
        alloc: Global,
        source: &mut S,
        sink: &mut K,
        clock: &mut C,
        gate: &G,
        line: &mut LineBuf,
    ) -> Result<Got, SearchFault>
    where
        R: Threads + Wait + Sync,
        S: Source,
        K: Sink,
        C: Clock,
        G: Gate + Sync,
        requires thinks { CecpState.thinks self.old ≡ true }
        ensures thought { IfOk result (λ next. (first : moves.Move) → IsFirst self.old first → Thought
            (Moves S.left K.taken C.given C.count C.last source.old source.new sink.old sink.new clock.old clock.new)
            (S.owed source.old) (S.owed source.new) self.old self.new first next line.new) }
        ensures unthought { OnErr result ((first : moves.Move) → IsFirst self.old first → Unthought
            (Moves S.left K.taken C.given C.count C.last source.old source.new sink.old sink.new clock.old clock.new)
            self.old first) }
        ensures end { IfOk result (λ next. next ≡ Got.End → IsAtEnd (S.left source.new)) }
        ensures failed { IfOk result (λ next. next ≡ Got.Failed → Rose (S.faults source.old) (S.faults source.new)) }
        ensures causes { Causes (S.faults source.old) (S.faults source.new) (K.faults sink.old) (K.faults sink.new)
            (IsErrOf result) }
    {
        let depths = self.seek(rt, alloc, source, sink, clock, gate, line)?;
        if is_dropped(depths.why, line) {
            return Ok(next_of(source, line, depths.why));
        }
        self.make_move(alloc, sink, &depths.best)?;
        Ok(next_of(source, line, depths.why))
    }
}
