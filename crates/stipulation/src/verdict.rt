//! The verdict on a certificate.
use move_text::write_move;
use rules_model::Move;
use std::{fmt, str};

/// What the check of a certificate answers: that it holds, or its first failure, with the number of the step that has
/// it. Steps count from 1, and 0 is the root. Every step is tested for `BadPly` first; then the root and the steps, in
/// order, are each tested for the others, in theirs.
#[derive(Clone, Copy, PartialEq, Eq)]
pub enum CertVerdict {
    /// 0: there is no failure.
    Holds,
    /// 1: the ply is 0, or more than one above that of the step before, which for the first step counts as 0.
    BadPly(u64),
    /// 2: the parent's game is ended; or the move is not legal there; or an earlier step has the same parent and move;
    /// or an earlier step has the same parent, where one move is asked for: of the side that is to move at the root,
    /// and in a helpmate of either side.
    BadMove(u64),
    /// 3: the ply is above twice the number of moves.
    TooDeep(u64),
    /// 4: the game of the step is ended, and not by a checkmate that wins for the side that is not to move at the root.
    /// In a helpmate also the root, where it is ended and there is no step.
    NotMate(u64),
    /// 5: the game of the step is ongoing, every move is asked for, and this is the first legal one without a child.
    MissingReply(u64, Move),
    /// 6: the game of the step is ongoing, one move is asked for, and there is no child.
    Unfinished(u64),
}

impl fmt::Display for CertVerdict {
    ghost use Rattle.std.specs.Prelude.{Some};
    ghost use Rattle.stipulation.specs.Verdicts.{verdict_text};

    ghost output = { λ verdict. Some (verdict_text verdict) };

    /// The type's name, the verdict's number, its name, and the step and the move that it names, as
    /// `CertVerdict 5 MissingReply 1 e8e1`.
    fn fmt<W: fmt::Write>(&self, f: &mut fmt::Formatter<W>) -> fmt::Result {
        match *self {
            CertVerdict::Holds => f.write_str("CertVerdict 0 Holds"),
            CertVerdict::BadPly(step) => write!(f, "CertVerdict 1 BadPly {step}"),
            CertVerdict::BadMove(step) => write!(f, "CertVerdict 2 BadMove {step}"),
            CertVerdict::TooDeep(step) => write!(f, "CertVerdict 3 TooDeep {step}"),
            CertVerdict::NotMate(step) => write!(f, "CertVerdict 4 NotMate {step}"),
            CertVerdict::MissingReply(step, m) => {
                let text = write_move(&m);
                let Ok(reply) = str::from_utf8(text.items.as_slice()) else {
                    return Err(fmt::Error);
                };
                write!(f, "CertVerdict 5 MissingReply {step} {reply}")
            }
            CertVerdict::Unfinished(step) => write!(f, "CertVerdict 6 Unfinished {step}"),
        }
    }
}
