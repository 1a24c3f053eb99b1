//! Which of the candidates are wanted, and what the sets say of them.
ghost use Rattle.std.specs.Prelude.{◌≡◌, ◌<◌, ℕ, true, false, not, ◌&&◌, ◌||◌, IfSome};
ghost use Rattle.std.specs.Bool.{OnTrue};
ghost use Rattle.square_set.specs.Members.{has, length_of, HasOrigin};
ghost use Rattle.rules_model.specs.declared.moves.Move.{Move};
ghost use Rattle.piece_moves.specs.InTurn.{GoesTo};
ghost use Rattle.legality.specs.Chosen as Chosen;
ghost use Rattle.rules_model.specs.Moves.{IsFitMove};

use crate::capture::captures;
use crate::pin_info::PinInfo;
use crate::pin_squares::barred_at_once;
use rules_model::{Kind, Move, Placed, Promo, Square};
use square_set::{EMPTY, Set, Shift};

fn is_fit_promo(promo: Promo) -> bool
    ensures { result ≡ Chosen.is_fit_promo promo }
{
    match promo {
        Promo::Stays => true,
        Promo::Pawn(kind) => kind.0 < 26,
        Promo::Plus => true,
    }
}

fn is_fit_gate(gate: Option<Kind>) -> bool
    ensures { result ≡ Chosen.is_fit_gate gate }
{
    match gate {
        None => true,
        Some(kind) => kind.0 < 26,
    }
}

fn is_fit_placed(gate: Option<Placed>) -> bool
    ensures { result ≡ Chosen.is_fit_placed gate }
{
    match gate {
        None => true,
        Some(placed) => placed.kind.0 < 26 && placed.at.0 < 120,
    }
}

/// Whether the squares of the move are on the largest board, and its kinds letters.
#[tactic(auto, unfolding(crate::specs::Chosen::is_fit_move))]
pub(crate) fn is_fit_move(m: &Move) -> bool
    ensures { result ≡ Chosen.is_fit_move m.now }
{
    match *m {
        Move::Go {
            from,
            to,
            promo,
            gate,
        } => from.0 < 120 && to.0 < 120 && is_fit_promo(promo) && is_fit_gate(gate),
        Move::Castle {
            from,
            to,
            rook,
            gate,
        } => from.0 < 120 && to.0 < 120 && rook.0 < 120 && is_fit_placed(gate),
        Move::Drop { kind, to } => kind.0 < 26 && to.0 < 120,
    }
}

/// Which of the moves are wanted.
#[derive(Clone, Copy)]
pub(crate) enum GenType {
    All,
    Captures,
    Quiets,
}

impl GenType {
    /// Whether moves that do not capture are wanted.
    fn has_quiets(self) -> bool
        ensures { result ≡ Chosen.is_in self false }
    {
        match self {
            GenType::All => true,
            GenType::Captures => false,
            GenType::Quiets => true,
        }
    }

    /// Of the targets, those to which moves are wanted, where exactly those to the enemies capture.
    fn of_targets(self, targets: Set, enemies: Set) -> Set
        ensures { (s : ℕ) → has result s ≡ (has targets s && Chosen.is_in self (has enemies s)) }
    {
        match self {
            GenType::All => targets,
            GenType::Captures => targets.and(enemies),
            GenType::Quiets => targets.minus(enemies),
        }
    }
}

/// Of the targets of moves, those of which the sets say whether the moves are chosen.
#[derive(Clone, Copy)]
pub(crate) struct ToldTargets {
    pub targets: Set,
    /// Those to which the moves are chosen.
    pub chosen: Set,
}

impl ToldTargets {
    /// Of all the targets, those to which the moves are chosen or may be.
    pub fn worth(self, all: Set) -> Set
        ensures { (s : ℕ) → has result s ≡ ((has all s && not (has self.targets s)) || has self.chosen s) }
    {
        all.minus(self.targets).or(self.chosen)
    }
}

/// Of the targets of moves, those to which the moves are wanted, and those of which this is not told.
#[derive(Clone, Copy)]
struct WantedTargets {
    wanted: Set,
    untold: Set,
}

/// What is chosen of the candidates of a position: those that are wanted and sane.
#[derive(Drop)]
pub(crate) struct MoveFilter<'a> {
    pub pin_info: PinInfo<'a>,
    pub gen_type: GenType,
}

impl<'a> MoveFilter<'a> {
    ghost use Rattle.legality.specs.Choices as Choices;

    /// Whether the fit move is wanted.
    fn wants(&self, m: &Move) -> bool
        requires { IsFitMove m.now }
        ensures { result ≡ Choices.wanted_by self.now m.now }
    {
        let (rules, p) = (self.pin_info.tables.rules(), self.pin_info.p);
        match self.gen_type {
            GenType::All => true,
            GenType::Captures => captures(rules, p, m),
            GenType::Quiets => !captures(rules, p, m),
        }
    }

    /// Whether the fit candidate is wanted, and sane.
    fn suits(&self, m: &Move) -> bool
        requires { IsFitMove m.now }
        ensures { result ≡ Choices.suits self.now m.now }
    {
        self.wants(m) && self.pin_info.is_sane(m)
    }

    /// The targets to which the moves are wanted: for captures the enemies' squares, for others the rest. Own squares
    /// and that of en passant are not told, unless all moves are wanted: to an empty square a piece captures in passing
    /// alone.
    fn wanted(&self, targets: Set) -> WantedTargets
        requires targets { (s : ℕ) → has targets s ≡ true → s < 120 }
        ensures within { (s : ℕ) → has result.wanted s ≡ true → has targets s ≡ true }
        ensures wanted { Choices.AreWanted self.now result.wanted }
        ensures others { Choices.AreUnwanted self.now targets result.wanted result.untold }
    {
        if let GenType::All = self.gen_type {
            return WantedTargets {
                wanted: targets,
                untold: EMPTY,
            };
        }
        let barred = barred_at_once(self.pin_info.p, self.pin_info.sets.own);
        let of_gen_type = self
            .gen_type
            .of_targets(targets, self.pin_info.sets.enemies);
        WantedTargets {
            wanted: of_gen_type.minus(barred),
            untold: targets.and(barred),
        }
    }

    /// Whether the sets say that all moves from the square to these, which are wanted, are chosen.
    fn holds_all(&self, from: Square, gate: Option<Kind>, targets: Set) -> bool
        requires from { from.0 < 120 }
        requires targets { (s : ℕ) → has targets s ≡ true → s < 120 }
        requires wanted { Choices.AreWanted self.now targets }
        ensures { OnTrue result ((m : Move) → GoesTo from gate targets m → Choices.chosen_by self.now m ≡ true) }
    {
        match gate {
            None => self.pin_info.lets_go(from, targets),
            Some(kind) => kind.0 < 26 && self.pin_info.lets_gate(from, kind, targets),
        }
    }

    /// Whether the sets say that no move from the square to these is chosen.
    fn holds_none(&self, from: Square, gate: Option<Kind>, targets: Set) -> bool
        requires from { from.0 < 120 }
        requires targets { (s : ℕ) → has targets s ≡ true → s < 120 }
        ensures { OnTrue result ((m : Move) → GoesTo from gate targets m → Choices.chosen_by self.now m ≡ false) }
    {
        match gate {
            None => self.pin_info.bars_go(from, targets),
            Some(kind) => self.pin_info.bars_gate(from, kind, targets),
        }
    }

    /// The same as `chosen_at_once`, where the moves to all the targets are wanted.
    fn chosen_of(&self, from: Square, gate: Option<Kind>, targets: Set) -> Option<Set>
        requires from { from.0 < 120 }
        requires targets { (s : ℕ) → has targets s ≡ true → s < 120 }
        requires wanted { Choices.AreWanted self.now targets }
        ensures { IfSome result (λ those. Chosen.AreTargetsFrom (Choices.chosen_by self.now) from gate targets those) }
    {
        if self.holds_all(from, gate, targets) {
            return Some(targets);
        }
        if self.holds_none(from, gate, targets) {
            return Some(EMPTY);
        }
        match gate {
            None => self.pin_info.lets_king(from, targets),
            Some(_) => None,
        }
    }

    /// Of the targets, those to which the moves from the square are chosen, where the sets say so.
    pub fn chosen_at_once(&self, from: Square, gate: Option<Kind>, targets: Set) -> Option<Set>
        requires from { from.0 < 120 }
        requires targets { (s : ℕ) → has targets s ≡ true → s < 120 }
        ensures { IfSome result (λ those. Chosen.AreTargetsFrom (Choices.chosen_by self.now) from gate targets those) }
    {
        let split = self.wanted(targets);
        if !split.untold.is_empty() {
            return None;
        }
        if split.wanted.is_empty() {
            return Some(EMPTY);
        }
        self.chosen_of(from, gate, split.wanted)
    }

    /// Which of the moves from the square to the targets are chosen, as far as the sets say.
    pub fn told_from(&self, from: Square, gate: Option<Kind>, targets: Set) -> ToldTargets
        requires from { from.0 < 120 }
        requires targets { (s : ℕ) → has targets s ≡ true → s < 120 }
        ensures within { (s : ℕ) → has result.targets s ≡ true → has targets s ≡ true }
        ensures chosen { Chosen.AreTargetsFrom (Choices.chosen_by self.now) from gate result.targets result.chosen }
    {
        if let Some(chosen) = self.chosen_at_once(from, gate, targets) {
            return ToldTargets { targets, chosen };
        }
        let split = self.wanted(targets);
        ToldTargets {
            targets: targets.minus(split.wanted).minus(split.untold),
            chosen: EMPTY,
        }
    }

    /// Which of the moves by the shift to the targets are chosen, as far as the sets say.
    pub fn told_by(&self, shift: Shift, targets: Set) -> ToldTargets
        requires length { length_of shift < 128 }
        requires targets { (s : ℕ) → has targets s ≡ true → s < 120 }
        requires starts { (s : ℕ) → has targets s ≡ true → HasOrigin shift 120 s }
        ensures within { (s : ℕ) → has result.targets s ≡ true → has targets s ≡ true }
        ensures chosen { Chosen.AreTargetsBy (Choices.chosen_by self.now) shift result.targets result.chosen }
    {
        let split = self.wanted(targets);
        let unwanted = targets.minus(split.wanted).minus(split.untold);
        let chosen = self.pin_info.lets_shift(shift, split.wanted);
        let barred = self.pin_info.bars_shift(shift, split.wanted);
        ToldTargets {
            targets: chosen.or(barred).or(unwanted),
            chosen,
        }
    }

    /// Which of the drops of the kind on the targets are chosen, as far as the sets say: none, where only
    /// captures are wanted.
    pub fn told_drops(&self, kind: Kind, targets: Set) -> ToldTargets
        requires kind { kind.0 < 26 }
        requires targets { (s : ℕ) → has targets s ≡ true → s < 120 }
        ensures within { (s : ℕ) → has result.targets s ≡ true → has targets s ≡ true }
        ensures chosen { Chosen.AreTargetsOfDrops (Choices.chosen_by self.now) kind result.targets result.chosen }
    {
        if !self.gen_type.has_quiets() {
            return ToldTargets {
                targets,
                chosen: EMPTY,
            };
        }
        let chosen = self.pin_info.lets_drop(kind, targets);
        let barred = self.pin_info.bars_drop(kind, targets);
        ToldTargets {
            targets: chosen.or(barred),
            chosen,
        }
    }

    /// Whether the candidate is chosen.
    #[tactic(auto, unfolding(crate::specs::Chosen::is_chosen))]
    pub fn holds(&self, m: &Move) -> bool
        ensures { result ≡ Choices.chosen_by self.now m.now }
    {
        is_fit_move(m) && self.suits(m)
    }
}
