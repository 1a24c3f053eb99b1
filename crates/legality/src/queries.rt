//! What is asked of the legal moves without a list of them.
ghost use Rattle.std.specs.Prelude.{◌≡◌, ◌-◌, ◌^◌, ◌↔◌, min, not, true, length, IsTrue};
ghost use Rattle.std.specs.Bool.{OnTrue};
ghost use Rattle.foundation.specs.Member.{Member};
ghost use Rattle.rules_model.specs.Allowed as Allowed;
ghost use Rattle.rules_model.specs.Legal as Legal;
ghost use Rattle.rules_model.specs.Moves.{IsFitMove};
ghost use Rattle.rules_model.specs.Ready.{IsReady};
ghost use Rattle.rules_model.specs.Repeats.{repeat_of};
ghost use Rattle.rules_model.specs.Sound.{is_sound};
ghost use Rattle.board_sets.specs.Sets.{AreSets};
ghost use Rattle.legality.specs.Chosen as Chosen;
ghost use Rattle.legality.specs.NoMoveEnds.{no_move_end_where};
ghost use Rattle.legality.specs.Moved.{AreOwn, HoldNoKing, LeaveSafely};
ghost use Rattle.legality.specs.Stance.{legal_in, repeat_in};

use crate::candidates::{is_candidate, prove_candidates_fit, push_candidates};
use crate::capture::captures;
use crate::count_sink::CountSink;
use crate::early_end::{early_end_with, goes_on};
use crate::make_move::king_attacked_with;
use crate::move_filter::{GenType, MoveFilter};
use crate::move_gen::MoveGen;
use crate::pin_info::PinInfo;
use crate::pin_squares::free_squares;
use attack_tables::Tables;
use board_sets::{BoardSets, sets_of};
use end_rules::no_move;
use rules_model::{Move, Outcome, Position, Rules};
use square_set::Set;

impl MoveGen<'_> {
    /// How many legal moves there are, up to 2^128 - 1. No memory is taken.
    pub fn count_legal(&self) -> u128
        ensures { result ≡ min (length (legal_in self.now)) (2 ^ 128 - 1) }
    {
        if !self.goes_on() {
            return 0;
        }
        let (pin_info, gen_type) = (self.pin_info, self.legal_gen_type());
        let move_filter = MoveFilter { pin_info, gen_type };
        let mut counter = CountSink {
            move_filter,
            count: 0,
        };
        let _ = push_candidates(pin_info.tables, pin_info.p, &pin_info.sets, &mut counter);
        counter.count
    }

    /// Whether there is a legal move. It stops at the first, and no memory is taken.
    pub fn any_legal(&self) -> bool
        ensures { result ≡ not (Legal.is_stuck self.now.rules (repeat_in self.now)) }
    {
        self.goes_on() && self.can_go(GenType::All)
    }

    /// The end that the position has by itself: an early end, or that no move is legal; `Outcome::Ongoing` where there
    /// is none. No memory is taken.
    #[tactic(auto, unfolding(rules_model::specs::Legal::own_end))]
    pub fn own_end(&self) -> Outcome
        ensures { result ≡ Legal.own_end self.now.rules (repeat_in self.now) }
    {
        match self.early {
            Outcome::Ongoing => {
                let pin_info = &self.pin_info;
                let any = self.can_go(GenType::All);
                no_move_end(pin_info.tables, pin_info.p, &pin_info.sets, any)
            }
            end => end,
        }
    }
}

/// Whether there is a legal move. It stops at the first, and no memory is taken.
pub fn any_legal(rules: &Rules, tables: &Tables, p: &Position) -> bool
    requires ready { IsReady rules.now tables.now p.now }
    ensures { result ≡ not (Legal.is_stuck rules.now (repeat_of p.now)) }
{
    let sets = sets_of(rules, &p.cells, p.side);
    MoveGen::of(tables, p, &sets).any_legal()
}

/// The end where the position has no early end, for a caller who knows whether some move is legal.
fn no_move_end(tables: &Tables, p: &Position, sets: &BoardSets, any: bool) -> Outcome
    requires { AreSets tables.now p.now.side p.now.cells sets.now }
    ensures { result ≡ no_move_end_where tables.now (repeat_of p.now) any }
{
    if any {
        Outcome::Ongoing
    } else {
        no_move(tables.rules(), p.side, king_attacked_with(tables, p, sets))
    }
}

/// The same as `own_end`, by the sets of the board, for a caller who also knows whether some move is legal.
#[tactic(auto, unfolding(rules_model::specs::Legal::own_end))]
pub fn end_where(tables: &Tables, p: &Position, sets: &BoardSets, any: bool) -> Outcome
    requires sets { AreSets tables.now p.now.side p.now.cells sets.now }
    requires any { any ≡ not (Legal.is_stuck tables.now (repeat_of p.now)) }
    ensures { result ≡ Legal.own_end tables.now (repeat_of p.now) }
{
    match early_end_with(tables, p, sets) {
        Outcome::Ongoing => no_move_end(tables, p, sets, any),
        end => end,
    }
}

/// The end that the position has by itself: an early end, or that no move is legal; `Outcome::Ongoing` where there is
/// none. No memory is taken.
pub fn own_end(tables: &Tables, p: &Position) -> Outcome
    requires { is_sound tables.now p.now ≡ true }
    ensures { result ≡ Legal.own_end tables.now (repeat_of p.now) }
{
    let sets = sets_of(tables.rules(), &p.cells, p.side);
    MoveGen::of(tables, p, &sets).own_end()
}

/// Whether the move is a candidate, and sane.
#[tactic(auto, unfolding(rules_model::specs::Legal::is_allowed))]
fn is_allowed(tables: &Tables, p: &Position, sets: &BoardSets, m: &Move) -> bool
    requires { AreSets tables.now p.now.side p.now.cells sets.now }
    ensures is { result ≡ Legal.is_allowed tables.now (repeat_of p.now) m.now }
    ensures fit { OnTrue result (IsFitMove m.now) }
{
    prove_candidates_fit(tables.rules(), p);
    is_candidate(tables, p, sets, m) && PinInfo::of_few(tables, p, sets).is_sane(m)
}

/// Whether the fit move captures, or need not.
#[tactic(auto, unfolding(crate::specs::Chosen::can_go, rules_model::specs::Allowed::can_capture))]
fn captures_if_forced(tables: &Tables, p: &Position, sets: &BoardSets, m: &Move) -> bool
    requires sound { is_sound tables.now p.now ≡ true }
    requires sets { AreSets tables.now p.now.side p.now.cells sets.now }
    requires move_fits { IsFitMove m.now }
    ensures { result ≡ Chosen.captures_if_forced tables.now (repeat_of p.now) m.now }
{
    let rules = tables.rules();
    !rules.must_capture
        || captures(rules, p, m)
        || !MoveGen::of(tables, p, sets).can_go(GenType::Captures)
}

/// Whether the move is legal by the rules.
#[tactic(auto, unfolding(rules_model::specs::Allowed::is_legal))]
fn is_lawful(tables: &Tables, p: &Position, sets: &BoardSets, m: &Move) -> bool
    requires sound { is_sound tables.now p.now ≡ true }
    requires sets { AreSets tables.now p.now.side p.now.cells sets.now }
    ensures is { result ≡ Allowed.is_legal tables.now (repeat_of p.now) m.now }
    ensures fit { OnTrue result (IsFitMove m.now) }
{
    goes_on(tables, p, sets)
        && is_allowed(tables, p, sets, m)
        && captures_if_forced(tables, p, sets, m)
}

/// The same as `is_legal`, by the sets of the board, which the caller has.
pub fn is_legal_with(tables: &Tables, p: &Position, sets: &BoardSets, m: &Move) -> bool
    requires sound { is_sound tables.now p.now ≡ true }
    requires sets { AreSets tables.now p.now.side p.now.cells sets.now }
    ensures is { result ≡ Allowed.is_legal tables.now (repeat_of p.now) m.now }
    ensures member { IsTrue result ↔ Member m.now (Legal.legal tables.now (repeat_of p.now)) }
{
    is_lawful(tables, p, sets, m)
}

/// Whether the move is legal: whether `legal_moves` lists it. Every value of `Move` may be asked for. No memory is
/// taken, and no other move is looked at but where one must capture and this move does not.
pub fn is_legal(rules: &Rules, tables: &Tables, p: &Position, m: &Move) -> bool
    requires ready { IsReady rules.now tables.now p.now }
    ensures is { result ≡ Allowed.is_legal rules.now (repeat_of p.now) m.now }
    ensures member { IsTrue result ↔ Member m.now (Legal.legal rules.now (repeat_of p.now)) }
{
    let sets = sets_of(rules, &p.cells, p.side);
    is_legal_with(tables, p, &sets, m)
}

/// Own pieces other than kings that may go anywhere: none leaves the own king attacked by a move on which it stays
/// what it is, places nothing, takes no own piece and does not take in passing. There may be more such pieces. No
/// memory is taken.
pub fn free(rules: &Rules, tables: &Tables, p: &Position) -> Set
    requires ready { IsReady rules.now tables.now p.now }
    ensures safe { LeaveSafely rules.now (repeat_of p.now) result }
    ensures own { AreOwn (repeat_of p.now) result }
    ensures no_king { HoldNoKing rules.now (repeat_of p.now) result }
{
    let sets = sets_of(rules, &p.cells, p.side);
    free_squares(tables, p, &sets).to_leave
}

/// The same as `gives_check`, by the sets of the board, which the caller has.
pub fn gives_check_with(tables: &Tables, p: &Position, sets: &BoardSets, m: &Move) -> bool
    requires sets { AreSets tables.now p.now.side p.now.cells sets.now }
    requires legal { Member m.now (Legal.legal tables.now (repeat_of p.now)) }
    ensures { result ≡ Legal.gives_check tables.now (repeat_of p.now) m.now }
{
    PinInfo::of_few(tables, p, sets).checks_after(m)
}

/// Whether the legal move attacks the other side's king.
pub fn gives_check(rules: &Rules, tables: &Tables, p: &Position, m: &Move) -> bool
    requires ready { IsReady rules.now tables.now p.now }
    requires legal { Member m.now (Legal.legal rules.now (repeat_of p.now)) }
    ensures { result ≡ Legal.gives_check rules.now (repeat_of p.now) m.now }
{
    let sets = sets_of(rules, &p.cells, p.side);
    gives_check_with(tables, p, &sets, m)
}
