//! What the kinds of a variant reach, made once for its rules.
ghost use Rattle.std.specs.Prelude.{◌≡◌, ℕ, ◌<◌, List, Option, IfOk};
ghost use Rattle.rules_model.specs.declared.board.Cell.{Cell};
ghost use Rattle.rules_model.specs.Fit.{IsFit};
ghost use Rattle.rules_model.specs.Sides.{side_index};
ghost use Rattle.square_set.specs.Members.{has};
ghost use Rattle.move_tables.specs.Occupied.{IsOccupied};
ghost use Rattle.move_tables.specs.Reached.{AreReached};
ghost use Rattle.move_tables.specs.Spots as Spots;

use crate::build::spots_of;
use crate::mode::Mode;
use crate::spot::Spot;
use foundation::Memory;
use rules_model::{Kind, Rules, Side, Square, copy_of_rules};
use square_set::Set;
use std::alloc::Global;
use std::marker::Model;

/// What a variant's pieces reach. In a contract the tables are the rules of which they were made.
#[derive(Drop)]
pub struct MoveTables {
    rules: Box<Rules>,
    spots: Vec<Spot>,
}

impl Model for MoveTables {
    ghost use Rattle.std.specs.Prelude.{box_value};
    ghost use Rattle.rules_model.specs.declared.rules.Rules.{Rules};
    ghost use Rattle.rules_model.specs.Fit.{IsFit};
    ghost use Rattle.move_tables.specs.Spots.{AreSpots};

    ghost Value = { Rules };

    ghost view = { λ t. box_value t.rules };

    ghost invariant = { λ t. IsFit (box_value t.rules) × AreSpots (box_value t.rules) t.spots.items };
}

fn mode_number(mode: Mode) -> usize
    ensures is { result ≡ Spots.mode_number mode }
    ensures below { result < 2 }
{
    match mode {
        Mode::Quiet => 0,
        Mode::Take => 1,
    }
}

/// The place of a spot.
fn spot_place(side: Side, kind: Kind, mode: Mode, from: Square) -> usize
    requires kind { kind.0 < 26 }
    requires from { from.0 < 120 }
    ensures is { result ≡ Spots.spot_place (side_index side) kind.0 (Spots.mode_number mode) from.0 }
    ensures below { result < 12480 }
{
    ((side.index() * 26 + kind.0 as usize) * 2 + mode_number(mode)) * 120 + from.0 as usize
}

impl MoveTables {
    /// The tables of the rules, or `Memory`.
    pub fn new(alloc: Global, rules: &Rules) -> Result<MoveTables, Memory>
        requires { IsFit rules.now }
        ensures { IfOk result (λ t. t ≡ rules.now) }
    {
        let spots = spots_of(alloc, rules)?;
        let rules = Box::new(alloc, copy_of_rules(rules))?;
        Ok(MoveTables { rules, spots })
    }

    /// The rules of which the tables were made.
    pub fn rules(&self) -> &Rules
        ensures is { result.now ≡ self.now }
        ensures fit { IsFit self.now }
    {
        &self.rules
    }

    /// What the kind of the side reaches from the square in the mode, on each board.
    pub fn spot(&self, by: Side, kind: Kind, from: Square, mode: Mode) -> &Spot
        requires kind { kind.0 < 26 }
        requires from { from.0 < 120 }
        ensures { Spots.IsOfKind self.now by kind from mode result.now }
    {
        &self.spots[spot_place(by, kind, mode, from)]
    }

    /// The squares that a piece of the kind and the side reaches from the square by its terms of the mode, on a board
    /// whose occupied squares are those of the set: rule Reach, and the pawn's two diagonals to take. A soldier below
    /// its rank goes along its file alone, and no piece leaves its mobility region. No memory is taken.
    pub fn reach_set(&self, by: Side, kind: Kind, from: Square, mode: Mode, occupied: Set) -> Set
        requires kind { kind.0 < 26 }
        requires from { from.0 < 120 }
        ensures { AreReached self.now by kind from mode occupied result }
    {
        self.spot(by, kind, from, mode).reach(occupied)
    }
}
