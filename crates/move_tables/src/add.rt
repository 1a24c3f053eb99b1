//! Leaps, lines and jumps that are added to a spot.
ghost use Rattle.std.specs.Prelude.{◌≡◌, ℕ, ◌<◌, ◌||◌, OnOk};
ghost use Rattle.square_set.specs.Members.{has};
ghost use Rattle.move_tables.specs.Added as Added;
ghost use Rattle.move_tables.specs.Lines as Lines;

use crate::jump::Jump;
use crate::line::Line;
use crate::spot::Spot;
use foundation::Memory;
use square_set::Set;

/// Adds a target that is reached whatever stands on the board.
pub(crate) fn add_leap(spot: &mut Spot, target: Set)
    ensures { Added.Adds spot.old spot.new (λ occupied t. has target t) }
{
    spot.leaps = spot.leaps.or(target);
}

/// Adds the line.
pub(crate) fn add_line(spot: &mut Spot, line: Line) -> Result<(), Memory>
    ensures { OnOk result (Added.Adds spot.old spot.new (λ occupied t. Lines.on_line line occupied t)) }
{
    spot.lines.push(line)?;
    Ok(())
}

/// Adds the jump.
pub(crate) fn add_jump(spot: &mut Spot, jump: Jump) -> Result<(), Memory>
    ensures { OnOk result (Added.Adds spot.old spot.new (λ occupied t. Lines.by_jump jump occupied t)) }
{
    spot.jumps.push(jump)?;
    Ok(())
}
