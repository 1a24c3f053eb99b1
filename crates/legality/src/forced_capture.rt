//! Whether some allowed move is wanted, and whether only captures are legal.
ghost use Rattle.std.specs.Prelude.{◌≡◌};
ghost use Rattle.rules_model.specs.Repeats.{repeat_of};
ghost use Rattle.legality.specs.Chosen as Chosen;
ghost use Rattle.legality.specs.Stance.{repeat_in};

use crate::any_sink::AnySink;
use crate::candidates::push_candidates;
use crate::move_filter::{GenType, MoveFilter};
use crate::move_gen::MoveGen;

/// Whether some allowed move is wanted, by what is known of the position. It stops at the first.
fn some_goes(move_filter: MoveFilter<'_>) -> bool
    ensures { result ≡ Chosen.can_go move_filter.entry.pin_info.tables.now (repeat_of move_filter.entry.pin_info.p.now)
        move_filter.entry.gen_type }
{
    let pin_info = move_filter.pin_info;
    let mut seeker = AnySink { move_filter };
    match push_candidates(pin_info.tables, pin_info.p, &pin_info.sets, &mut seeker) {
        Ok(()) => false,
        Err(_) => true,
    }
}

impl MoveGen<'_> {
    /// Whether some allowed move is wanted. It stops at the first.
    pub(crate) fn can_go(&self, gen_type: GenType) -> bool
        ensures { result ≡ Chosen.can_go self.now.rules (repeat_in self.now) gen_type }
    {
        let pin_info = self.pin_info;
        some_goes(MoveFilter { pin_info, gen_type })
    }

    /// Whether only captures are legal: one must capture, and can.
    #[tactic(auto, unfolding(crate::specs::Chosen::only_captures))]
    pub(crate) fn only_captures(&self) -> bool
        ensures { result ≡ Chosen.only_captures self.now.rules (repeat_in self.now) }
    {
        self.pin_info.tables.rules().must_capture && self.can_go(GenType::Captures)
    }

    /// Which of the allowed moves are legal, where there is no early end.
    pub(crate) fn legal_gen_type(&self) -> GenType
        ensures { result ≡ Chosen.legal_gen_type self.now.rules (repeat_in self.now) }
    {
        if self.only_captures() {
            GenType::Captures
        } else {
            GenType::All
        }
    }
}
