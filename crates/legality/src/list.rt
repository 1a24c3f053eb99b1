//! The list of the legal moves.
ghost use Rattle.std.specs.Prelude.{◌≡◌, length, OnOk, OnErr, IfOk};
ghost use Rattle.foundation.specs.Member.{Member, Appends};
ghost use Rattle.rules_model.specs.Legal.{legal};
ghost use Rattle.rules_model.specs.Ready.{IsReady};
ghost use Rattle.rules_model.specs.Repeats.{repeat_of};
ghost use Rattle.legality.specs.AskedChoices.{AppendsAsked};
ghost use Rattle.legality.specs.Asking.{IsAskedIn};
ghost use Rattle.legality.specs.Chosen.{AppendsChosen};
ghost use Rattle.legality.specs.Stance.{IsCaptureIn, IsOtherIn, legal_in};

use crate::asked::Asked;
use crate::asked_sink::{AskedSink, push_asked_candidates};
use crate::candidates::push_candidates;
use crate::list_sink::ListSink;
use crate::move_filter::{GenType, MoveFilter};
use crate::move_gen::MoveGen;
use crate::pin_info::PinInfo;
use crate::sorting::sort_moves;
use attack_tables::Tables;
use board_sets::sets_of;
use foundation::Memory;
use rules_model::{MoveList, Position, Rules};
use std::alloc::Global;
use std::mem;

/// How many moves the list has.
fn length_of(list: &MoveList) -> usize
    ensures { result ≡ length list.now }
{
    list.items.len()
}

/// Takes all moves from the list. Without memory the list is as it was.
fn emptied(list: &mut MoveList) -> Result<MoveList, Memory>
    ensures ok { IfOk result (λ taken. taken ≡ list.old) }
    ensures err { OnErr result (list.new ≡ list.old) }
{
    let items = mem::try_take(&mut list.items)?;
    Ok(MoveList { items })
}

/// Appends the candidates that are chosen, each once. Without memory the list is as it was.
fn push_chosen(move_filter: MoveFilter<'_>, out: &mut MoveList) -> Result<(), Memory>
    ensures ok { OnOk result (AppendsChosen move_filter.entry.pin_info.tables.now
        (repeat_of move_filter.entry.pin_info.p.now) move_filter.entry.gen_type out.old out.new) }
    ensures err { OnErr result (out.new ≡ out.old) }
{
    let pin_info = move_filter.pin_info;
    let start = length_of(out);
    let list = emptied(out)?;
    let mut keeper = ListSink { move_filter, list };
    let pushed = push_candidates(pin_info.tables, pin_info.p, &pin_info.sets, &mut keeper);
    mem::swap(out, &mut keeper.list);
    match pushed {
        Ok(()) => Ok(()),
        Err(full) => {
            out.items.truncate(start);
            Err(full)
        }
    }
}

/// Appends the candidates that are chosen and asked for, each once. Without memory the list is as it was.
fn push_asked_of(
    move_filter: MoveFilter<'_>,
    asked: &Asked,
    out: &mut MoveList,
) -> Result<(), Memory>
    ensures ok { OnOk result (AppendsAsked asked.now move_filter.entry.pin_info.tables.now
        (repeat_of move_filter.entry.pin_info.p.now) move_filter.entry.gen_type out.old out.new) }
    ensures err { OnErr result (out.new ≡ out.old) }
{
    let start = length_of(out);
    let list = emptied(out)?;
    let mut sink = AskedSink {
        keeper: ListSink { move_filter, list },
        asked,
    };
    let pushed = push_asked_candidates(&mut sink);
    mem::swap(out, &mut sink.keeper.list);
    match pushed {
        Ok(()) => Ok(()),
        Err(full) => {
            out.items.truncate(start);
            Err(full)
        }
    }
}

impl MoveGen<'_> {
    /// Appends the legal moves, each once and in no special order. Without memory the list is as it was.
    pub fn push_legal(&self, out: &mut MoveList) -> Result<(), Memory>
        ensures ok { OnOk result (Appends (λ m. Member m (legal_in self.now)) out.old out.new) }
        ensures err { OnErr result (out.new ≡ out.old) }
    {
        if !self.goes_on() {
            return Ok(());
        }
        let (pin_info, gen_type) = (self.pin_info, self.legal_gen_type());
        push_chosen(MoveFilter { pin_info, gen_type }, out)
    }

    /// Appends the legal moves that are asked for, each once and in no special order. Without memory the list is as it
    /// was.
    pub fn push_asked(&self, asked: &Asked, out: &mut MoveList) -> Result<(), Memory>
        ensures ok { OnOk result (Appends (IsAskedIn asked.now self.now) out.old out.new) }
        ensures err { OnErr result (out.new ≡ out.old) }
    {
        if !self.goes_on() {
            return Ok(());
        }
        let (pin_info, gen_type) = (self.pin_info, self.legal_gen_type());
        push_asked_of(MoveFilter { pin_info, gen_type }, asked, out)
    }

    /// Appends the legal moves that capture, each once and in no special order. Without memory the list is as it was.
    pub fn push_captures(&self, out: &mut MoveList) -> Result<(), Memory>
        ensures ok { OnOk result (Appends (IsCaptureIn self.now) out.old out.new) }
        ensures err { OnErr result (out.new ≡ out.old) }
    {
        if !self.goes_on() {
            return Ok(());
        }
        let (pin_info, gen_type) = (self.pin_info, GenType::Captures);
        push_chosen(MoveFilter { pin_info, gen_type }, out)
    }

    /// Appends the legal moves that do not capture, each once and in no special order. Without memory the list is as it
    /// was.
    pub fn push_quiets(&self, out: &mut MoveList) -> Result<(), Memory>
        ensures ok { OnOk result (Appends (IsOtherIn self.now) out.old out.new) }
        ensures err { OnErr result (out.new ≡ out.old) }
    {
        if !self.goes_on() {
            return Ok(());
        }
        if self.only_captures() {
            return Ok(());
        }
        let (pin_info, gen_type) = (self.pin_info, GenType::Quiets);
        push_chosen(MoveFilter { pin_info, gen_type }, out)
    }

    /// The legal moves, each once and in the byte order of their texts; or `Memory`.
    pub fn legal_moves(&self, alloc: Global) -> Result<MoveList, Memory>
        ensures { IfOk result (λ ms. ms ≡ legal_in self.now) }
    {
        self.prove_ready();
        let mut moves = MoveList {
            items: Vec::new(alloc),
        };
        self.push_legal(&mut moves)?;
        sort_moves(&mut moves.items)?;
        Ok(moves)
    }
}

/// The legal moves, each once and in the byte order of their texts: those of the rules of movement after which the
/// mover's king is not attacked, that give no check which the variant forbids and, where it asks so, put no piece where
/// it can never move; where one must capture and can, the captures alone. Where the position has ended there are none
/// (FIDE Laws of Chess, articles 3.9 and 3.10; Fairy-Stockfish's `checking`, `dropChecks`, `immobilityIllegal`,
/// `mustCapture`).
pub fn legal_moves(
    alloc: Global,
    rules: &Rules,
    tables: &Tables,
    p: &Position,
) -> Result<MoveList, Memory>
    requires ready { IsReady rules.now tables.now p.now }
    ensures { IfOk result (λ ms. ms ≡ legal rules.now (repeat_of p.now)) }
{
    let sets = sets_of(rules, &p.cells, p.side);
    MoveGen::of(tables, p, &sets).legal_moves(alloc)
}
