//! What a kind reaches from one square.
ghost use Rattle.std.specs.Prelude.{◌≡◌, ℕ, ◌<◌, ◌≤◌, false, ◌&&◌, ◌||◌};
ghost use Rattle.std.specs.List.{list_any};
ghost use Rattle.square_set.specs.Members.{has};
ghost use Rattle.move_tables.specs.Lines as Lines;

use crate::jump::Jump;
use crate::line::Line;
use square_set::Set;

/// The squares that a kind of a side reaches from one square in one mode.
#[derive(Drop)]
pub struct Spot {
    /// The squares that are reached on some board, at most: no other is reached, whatever the other parts say.
    pub within: Set,
    /// Those that are reached whatever stands on the board.
    pub leaps: Set,
    pub lines: Vec<Line>,
    pub jumps: Vec<Jump>,
}

/// No set has a square from 128 on.
fn prove_none_beyond(set: Set)
    ensures { (t : ℕ) → 128 ≤ t → has set t ≡ false }
{}

fn along(lines: &[Line], occupied: Set, leaps: Set) -> Set
    ensures { (t : ℕ) → t < 128 → has result t
        ≡ (has leaps t || list_any (λ line. Lines.on_line line occupied t) lines.now) }
{
    let mut reached = leaps;
    for line in lines {
        reached = reached.or(line.reach(occupied));
    }
    reached
}

fn over(jumps: &[Jump], occupied: Set, others: Set) -> Set
    ensures { (t : ℕ) → t < 128 → has result t
        ≡ (has others t || list_any (λ jump. Lines.by_jump jump occupied t) jumps.now) }
{
    let mut reached = others;
    for jump in jumps {
        reached = reached.or(jump.reach(occupied));
    }
    reached
}

impl Spot {
    /// The squares that are reached where these are occupied.
    pub fn reach(&self, occupied: Set) -> Set
        ensures { (t : ℕ) → has result t ≡ Lines.by_spot self.now occupied t }
    {
        prove_none_beyond(self.within);
        let straight = along(&self.lines, occupied, self.leaps);
        over(&self.jumps, occupied, straight).and(self.within)
    }

    /// The squares that are reached by the parts on some board, at most.
    fn range(&self) -> Set
        ensures { Lines.IsRange self.now result }
    {
        let mut range = self.leaps;
        for line in &self.lines {
            range = range.or(line.squares);
        }
        for jump in &self.jumps {
            range = range.or(jump.target);
        }
        range
    }

    /// The spot that reaches by the same parts no square outside the region.
    pub(crate) fn cut(self, region: Set) -> Spot
        ensures { (occupied : Set) (t : ℕ)
            → Lines.by_spot result occupied t ≡ (has region t && Lines.by_parts self occupied t) }
    {
        let within = self.range().and(region);
        Spot { within, ..self }
    }
}
