//! What is answered in place of a text: a line `error FAULT`.
ghost use Rattle.std.specs.Prelude.{◌≡◌, IfOk};
ghost use Rattle.game_text.specs.Fault.{fault_text as game_fault_text};
ghost use Rattle.one_shot_checks.specs.Fault.{error_line, fault_status, fault_text};

use crate::ReachFault;
use betza_text::BetzaFault;
use cert_text::CertFault;
use foundation::{Memory, Text};
use game_text::{GameFault, write_fault};
use pn_search::PnFault;
use proof_text::ProofFault;
use std::alloc::{AllocError, Global};
use stipulation::CertVerdict;
use strategy::StrategyFault;
use strategy_check::Verdict;
use suite::{KeysFault, SuiteFault};
use variant_rules::LoadFault;

/// The fault of an argument, of the file of variants, or of the input.
#[derive(Drop)]
pub enum Fault<'a> {
    /// The word of `reach` is not of Betza's notation.
    Betza(BetzaFault),
    /// A square of `reach` is not on the board, or has a piece already.
    Reach(ReachFault<'a>),
    /// The input says no game, or no goal after it.
    Game(GameFault),
    /// The input says no strategy.
    Strategy(StrategyFault),
    /// The input is no proof text.
    Proof(ProofFault),
    /// The strategy of the input is not good.
    Verdict(Verdict),
    /// The input says no certificate for its game.
    Cert(CertFault),
    /// The certificate of the input does not hold.
    CertFailure(CertVerdict),
    /// A line of the input is no problem of a suite.
    Suite(SuiteFault),
    /// `pnmate` does not ask the game of the input.
    PnMate(PnFault),
    /// `keys` does not ask the game of the input.
    Keys(KeysFault),
    /// The file of variants is refused.
    Load(LoadFault),
}

// The line of a fault that prints so, which may be any bytes.
fn line_with(alloc: Global, fault: &Text) -> Result<Vec<u8>, AllocError>
    ensures { IfOk result (λ line. line.items ≡ error_line fault.now) }
{
    let mut line = b"error ".to_vec(alloc)?;
    line.extend_from_slice(fault.items.as_slice())?;
    line.push(b'\n')?;
    Ok(line)
}

// The line of the fault of a game text, whose names and texts may be any bytes.
fn game_line(alloc: Global, fault: &GameFault) -> Result<Vec<u8>, Memory>
    ensures { IfOk result (λ line. line.items ≡ error_line (game_fault_text fault.now)) }
{
    let text = write_fault(alloc, fault)?;
    Ok(line_with(alloc, &text)?)
}

impl<'a> Fault<'a> {
    /// The status of a run with this fault: 6 where a file was not read, else 3.
    pub fn status(&self) -> u8
        ensures { result ≡ fault_status self.now }
    {
        match self {
            Fault::Load(LoadFault::File(_)) => 6,
            _ => 3,
        }
    }

    /// The line `error FAULT`.
    pub fn line(&self, alloc: Global) -> Result<Text, Memory>
        ensures { IfOk result (λ line. line ≡ error_line (fault_text self.now)) }
    {
        let items = match self {
            Fault::Betza(fault) => format!(in alloc; "error {fault}\n")?.into_bytes(),
            Fault::Reach(fault) => format!(in alloc; "error {fault}\n")?.into_bytes(),
            Fault::Game(fault) => game_line(alloc, fault)?,
            Fault::Strategy(fault) => format!(in alloc; "error {fault}\n")?.into_bytes(),
            Fault::Proof(fault) => format!(in alloc; "error {fault}\n")?.into_bytes(),
            Fault::Verdict(verdict) => format!(in alloc; "error {verdict}\n")?.into_bytes(),
            Fault::Cert(fault) => format!(in alloc; "error {fault}\n")?.into_bytes(),
            Fault::CertFailure(verdict) => format!(in alloc; "error {verdict}\n")?.into_bytes(),
            Fault::Suite(fault) => format!(in alloc; "error {fault}\n")?.into_bytes(),
            Fault::PnMate(fault) => format!(in alloc; "error {fault}\n")?.into_bytes(),
            Fault::Keys(fault) => format!(in alloc; "error {fault}\n")?.into_bytes(),
            Fault::Load(fault) => format!(in alloc; "error {fault}\n")?.into_bytes(),
        };
        Ok(Text { items })
    }
}
