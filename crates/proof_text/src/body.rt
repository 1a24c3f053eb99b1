//! The faults of the strategy in the whole text.
ghost use Rattle.std.specs.Prelude.{◌≡◌, ◌+◌, ◌≤◌, ◌^◌, IfNone, IfSome};
ghost use Rattle.proof_text.specs.Fault.{HasBodyFault, line_in, moved_down};
ghost use Rattle.proof_text.specs.StrategyView.{HasBodyWhy};

use crate::fault::ProofFault;
use crate::source_lines::NoProof;
use crate::strategy_lines::NoStrategy;
use strategy::StrategyFault;

/// The fault, this many lines further down; none where its line would be above 2^64 - 1.
fn moved_down(lines: u64, fault: StrategyFault) -> Option<StrategyFault>
    ensures moved { IfSome result (λ moved. moved ≡ moved_down lines fault) }
    ensures beyond { IfNone result (2 ^ 64 ≤ line_in fault + lines) }
{
    Some(match fault {
        StrategyFault::Header(line) => StrategyFault::Header(line.checked_add(lines)?),
        StrategyFault::BadLine(line) => StrategyFault::BadLine(line.checked_add(lines)?),
        StrategyFault::BadPosition(line, why) => {
            StrategyFault::BadPosition(line.checked_add(lines)?, why)
        }
        StrategyFault::BadMove(line) => StrategyFault::BadMove(line.checked_add(lines)?),
        StrategyFault::BadNumber(line) => StrategyFault::BadNumber(line.checked_add(lines)?),
        StrategyFault::Ended(line) => StrategyFault::Ended(line.checked_add(lines)?),
        StrategyFault::Memory => StrategyFault::Memory,
    })
}

/// The fault of a proof text whose strategy has this fault, this many lines further down.
fn body_fault(lines: u64, fault: StrategyFault) -> ProofFault
    ensures { HasBodyFault lines fault result }
{
    match fault {
        StrategyFault::Memory => ProofFault::Memory,
        why => match moved_down(lines, why) {
            Some(moved) => ProofFault::BadBody(moved),
            None => ProofFault::Memory,
        },
    }
}

/// Why no proof was read whose strategy was not read for this reason, this many lines further down.
pub(crate) fn body_why(lines: u64, why: NoStrategy) -> NoProof
    ensures { HasBodyWhy lines why result }
{
    match why {
        NoStrategy::Faulty(fault) => NoProof::Faulty(body_fault(lines, fault)),
        NoStrategy::Unread => NoProof::Unread,
    }
}
