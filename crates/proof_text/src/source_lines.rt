//! Takes the lines of a proof text from a source.
ghost use Rattle.std.specs.Prelude.{◌≡◌};
ghost use Rattle.std.specs.Option.{option_copied};
ghost use Rattle.io_ports.specs.Cause.{HasCause};
ghost use Rattle.proof_text.specs.TakingView.{IsUnread, TakesText, text_if};

use crate::fault::ProofFault;
use foundation::Memory;
use io_ports::{Got, LineBuf, Source};
use std::alloc::{AllocError, AllocFailed};

/// Why no proof was read.
#[derive(Drop)]
pub enum NoProof {
    /// The lines have this fault, or there was no memory.
    Faulty(ProofFault),
    /// The source failed.
    Unread,
}

impl From<ProofFault> for NoProof {
    ghost use Rattle.std.specs.Prelude.{◌≡◌};
    ghost use Rattle.proof_text.specs.declared.source_lines.NoProof.TheVariants as no_proof;

    ghost from_gives = { λ why given. given ≡ no_proof.Faulty why };

    fn from(why: ProofFault) -> Self {
        NoProof::Faulty(why)
    }
}

impl From<Memory> for NoProof {
    ghost use Rattle.std.specs.Prelude.{◌≡◌};
    ghost use Rattle.proof_text.specs.declared.fault.ProofFault.TheVariants as fault;
    ghost use Rattle.proof_text.specs.declared.source_lines.NoProof.TheVariants as no_proof;

    ghost from_gives = { λ _ given. given ≡ no_proof.Faulty fault.Memory };

    fn from(_error: Memory) -> Self {
        NoProof::Faulty(ProofFault::Memory)
    }
}

impl From<AllocError> for NoProof {
    ghost use Rattle.std.specs.Prelude.{◌≡◌};
    ghost use Rattle.proof_text.specs.declared.fault.ProofFault.TheVariants as fault;
    ghost use Rattle.proof_text.specs.declared.source_lines.NoProof.TheVariants as no_proof;

    ghost from_gives = { λ _ given. given ≡ no_proof.Faulty fault.Memory };

    fn from(_error: AllocError) -> Self {
        NoProof::Faulty(ProofFault::Memory)
    }
}

impl<T: Drop> From<AllocFailed<T>> for NoProof {
    ghost use Rattle.std.specs.Prelude.{◌≡◌};
    ghost use Rattle.proof_text.specs.declared.fault.ProofFault.TheVariants as fault;
    ghost use Rattle.proof_text.specs.declared.source_lines.NoProof.TheVariants as no_proof;

    ghost from_gives = { λ _ given. given ≡ no_proof.Faulty fault.Memory };

    fn from(_error: AllocFailed<T>) -> Self {
        NoProof::Faulty(ProofFault::Memory)
    }
}

// Takes the next line, and says whether the buffer has it: it has none that is missing or too long.
pub(crate) fn take_text<S: Source>(source: &mut S, line: &mut LineBuf) -> Result<bool, NoProof>
    ensures takes { TakesText (S.left source.old) (S.left source.new) line.new result }
    ensures cause { HasCause (S.faults source.old) (S.faults source.new) (IsUnread result) }
{
    match source.next_line(line) {
        Got::Line => Ok(true),
        Got::TooLong | Got::End => Ok(false),
        Got::Failed => Err(NoProof::Unread),
    }
}

// The text in the buffer, where it is there.
pub(crate) fn text_if(is_there: bool, line: &LineBuf) -> Option<&[u8]>
    ensures { option_copied result ≡ text_if is_there line.now }
{
    if is_there { Some(line.text()) } else { None }
}
