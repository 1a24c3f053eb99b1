//! Betza words.
ghost use Rattle.std.specs.Prelude.{◌≡◌, ◌≢◌, IfOk, OnOk};
ghost use Rattle.variant_options.specs.BetzaWords.{terms_in};

use betza_compile::compile;
use betza_text::{BetzaFault, parse};
use rules_model::{Memory, Terms};
use std::alloc::Global;

/// A fault of a text.
fn unless_memory(fault: BetzaFault) -> Result<BetzaFault, Memory>
    ensures is { IfOk result (λ f. f ≡ fault) }
    ensures known { OnOk result (fault ≢ BetzaFault.Memory) }
{
    match fault {
        BetzaFault::Memory => Err(Memory),
        _ => Ok(fault),
    }
}

/// The terms of a word, or its first fault.
pub fn read_word(alloc: Global, word: &[u8]) -> Result<Result<Terms, BetzaFault>, Memory>
    ensures { IfOk result (λ read. read ≡ terms_in word.now) }
{
    match parse(alloc, word) {
        Ok(betza) => Ok(Ok(compile(&betza))),
        Err(fault) => Ok(Err(unless_memory(fault)?)),
    }
}
