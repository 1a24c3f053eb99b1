//! The list of the candidates that are chosen and asked for.
ghost use Rattle.std.specs.Prelude.{◌≡◌, OnOk, OnErr};
ghost use Rattle.piece_moves.specs.Taking.{TakesAll, TakesSome};
ghost use Rattle.legality.specs.AskedChoices.{FitCandidatesOf, KeepsAsked, asked_by};
ghost use Rattle.legality.specs.Sinks.{Kept, keeper_is_sink};

use crate::asked::Asked;
use crate::asked_squares::asked_squares;
use crate::list_sink::ListSink;
use crate::move_filter::is_fit_move;
use foundation::Memory;
use piece_moves::MoveSink;
use rules_model::{Kind, Move, Square};
use square_set::{Set, Shift};

/// Puts the candidates that are chosen and asked for at the end of a list. The others are not looked at.
#[derive(Drop)]
pub(crate) struct AskedSink<'a, 'b> {
    pub keeper: ListSink<'a>,
    pub asked: &'b Asked,
}

impl<'a, 'b> AskedSink<'a, 'b> {
    ghost use Rattle.legality.specs.AskedChoices.{filter_of};

    /// Whether the move is chosen and asked for. What is asked costs less.
    fn chooses(&self, m: &Move) -> bool
        ensures { result ≡ asked_by (filter_of self.now) m.now }
    {
        if !is_fit_move(m) {
            return false;
        }
        let move_filter = &self.keeper.move_filter;
        if !self.asked.asks(move_filter.pin_info.p, m) {
            return false;
        }
        move_filter.holds(m)
    }
}

/// Puts the candidates that are chosen and asked for at the end of the sink's list, each once and in no special order.
/// Pieces of which no move is asked for are not looked at.
pub(crate) fn push_asked_candidates(out: &mut AskedSink<'_, '_>) -> Result<(), Memory>
    ensures ok { OnOk result (TakesAll KeepsAsked (FitCandidatesOf out.old) out.old out.new) }
    ensures err { OnErr result (TakesSome KeepsAsked (FitCandidatesOf out.old) out.old out.new) }
{
    let pin_info = out.keeper.move_filter.pin_info;
    let (tables, p, sets) = (pin_info.tables, pin_info.p, &pin_info.sets);
    let from = asked_squares(out.asked, tables, p, sets);
    piece_moves::push_moves_from(tables, p, sets, from, out)?;
    special_moves::push_moves(tables.rules(), tables, p, sets, out)
}

impl<'a, 'b> MoveSink for AskedSink<'a, 'b> {
    ghost use Rattle.legality.specs.AskedChoices.{filter_of};

    ghost takes = { Kept filter_of (λ sink. sink.keeper.list) asked_by };

    ghost stops = { Kept filter_of (λ sink. sink.keeper.list) asked_by };

    ghost law = { keeper_is_sink filter_of (λ sink. sink.keeper.list) asked_by };

    type Full = Memory;

    fn take(&mut self, m: Move) -> Result<(), Memory> {
        if self.chooses(&m) {
            self.keeper.list.take(m)?;
        }
        Ok(())
    }

    fn take_all(&mut self, from: Square, gate: Option<Kind>, targets: Set) -> Result<(), Memory> {
        let p = self.keeper.move_filter.pin_info.p;
        let asked = self.asked.of_targets(p, from, gate, targets);
        if asked.is_empty() {
            return Ok(());
        }
        self.keeper.take_all(from, gate, asked)
    }

    fn take_shifted(&mut self, shift: Shift, targets: Set) -> Result<(), Memory> {
        let pin_info = self.keeper.move_filter.pin_info;
        let asked = self.asked.of_shift(
            pin_info.tables,
            pin_info.p,
            &pin_info.sets,
            shift,
            targets,
        );
        if asked.is_empty() {
            return Ok(());
        }
        self.keeper.take_shifted(shift, asked)
    }

    fn take_drops(&mut self, kind: Kind, targets: Set) -> Result<(), Memory> {
        let asked = self.asked.of_drops(kind, targets);
        if asked.is_empty() {
            return Ok(());
        }
        self.keeper.take_drops(kind, asked)
    }
}
