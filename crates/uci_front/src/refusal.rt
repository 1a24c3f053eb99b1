//! Why a line sets nothing.
ghost use Rattle.std.specs.Prelude.{◌≡◌, ◌++◌, codes};
ghost use Rattle.variant_model.specs.Fault as section;
ghost use Rattle.session_model.specs.UciState as UciState;
ghost use Rattle.variant_rules.specs.Loading.{load_fault_text};
ghost use Rattle.uci_front.specs.Outcomes.{Refuses};

use foundation::{Memory, Text};
use game_text::GameFault;
use std::alloc::{AllocError, Global};
use variant_fen::FenFault;
use variant_model::SectionFault;
use variant_rules::LoadFault;

/// Why a line sets nothing: its fault in words, or there was no memory.
#[derive(Drop)]
pub enum Refusal {
    Fault(Text),
    Memory,
}

impl From<Memory> for Refusal {
    ghost use Rattle.std.specs.Prelude.{◌≡◌};
    ghost use Rattle.uci_front.specs.declared.refusal.Refusal.TheVariants as refusal;

    ghost from_gives = { λ _ given. given ≡ refusal.Memory };

    fn from(_error: Memory) -> Self {
        Refusal::Memory
    }
}

impl From<AllocError> for Refusal {
    ghost use Rattle.std.specs.Prelude.{◌≡◌};
    ghost use Rattle.uci_front.specs.declared.refusal.Refusal.TheVariants as refusal;

    ghost from_gives = { λ _ given. given ≡ refusal.Memory };

    fn from(_error: AllocError) -> Self {
        Refusal::Memory
    }
}

// The fault of these words and of this text after them, or that there is no memory for it.
fn refusal_of(alloc: Global, words: &[u8], text: &[u8]) -> Refusal
    ensures { Refuses (words.now ++ text.now) result }
{
    let Ok(mut items) = words.to_vec(alloc) else {
        return Refusal::Memory;
    };
    match items.extend_from_slice(text) {
        Ok(()) => Refusal::Fault(Text { items }),
        Err(_) => Refusal::Memory,
    }
}

/// No section has the name.
pub(crate) fn unknown_variant(alloc: Global, name: &[u8]) -> Refusal
    ensures { Refuses (UciState.unknown_variant name.now) result }
{
    refusal_of(alloc, b"OptionFault 2 UnknownVariant ", name)
}

/// The variant is refused.
pub(crate) fn refused_variant(alloc: Global, fault: &SectionFault) -> Refusal
    ensures { Refuses (section.fault_text fault.now) result }
{
    match format!(in alloc; "{fault}") {
        Ok(text) => Refusal::Fault(Text {
            items: text.into_bytes(),
        }),
        Err(_) => Refusal::Memory,
    }
}

/// The file of variants is refused.
pub(crate) fn refused_file(alloc: Global, fault: LoadFault) -> Refusal
    ensures { Refuses (load_fault_text fault) result }
{
    match format!(in alloc; "{fault}") {
        Ok(text) => Refusal::Fault(Text {
            items: text.into_bytes(),
        }),
        Err(_) => Refusal::Memory,
    }
}

/// The option of this name takes no such value.
pub(crate) fn bad_value(alloc: Global, name: &[u8]) -> Refusal
    ensures { Refuses (UciState.bad_value name.now) result }
{
    refusal_of(alloc, b"OptionFault 1 BadValue ", name)
}

/// The text says no position of the variant.
pub(crate) fn bad_fen(alloc: Global, fault: FenFault) -> Refusal
    ensures { Refuses (UciState.bad_fen fault) result }
{
    match format!(in alloc; "PositionFault 1 BadFen {fault}") {
        Ok(text) => Refusal::Fault(Text {
            items: text.into_bytes(),
        }),
        Err(_) => Refusal::Memory,
    }
}

/// A move is not played.
pub(crate) fn bad_move(alloc: Global, fault: &GameFault) -> Refusal
    ensures { Refuses (UciState.move_fault fault.now) result }
{
    match fault {
        GameFault::BadMove { number, text } => {
            let Ok(words) = format!(in alloc; "PositionFault 2 BadMove {number} ") else {
                return Refusal::Memory;
            };
            refusal_of(alloc, words.as_bytes(), text.items.as_slice())
        }
        GameFault::TooManyMoves => refusal_of(alloc, b"PositionFault 3 TooManyMoves", b""),
        _ => refusal_of(alloc, b"", b""),
    }
}

/// No position is named.
pub(crate) fn no_position(alloc: Global) -> Refusal
    ensures { Refuses (codes "PositionFault 4 NoPosition") result }
{
    refusal_of(alloc, b"PositionFault 4 NoPosition", b"")
}
