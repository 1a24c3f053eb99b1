//! Facts with packed repeats.
ghost use Rattle.std.specs.Prelude.{◌≡◌};
ghost use Rattle.rules_model.specs.Repeats.{repeat_of};
ghost use Rattle.position_key.specs.Key.{IsBoardKey};
ghost use Rattle.forced_wins.specs.Facts as Facts;
ghost use Rattle.mate_core.specs.Best as Best;
ghost use Rattle.mate_core.specs.Hash.{hash_of};
ghost use Rattle.mate_core.specs.Claims.{claim_of, fact_with};

use forced_wins::Fact;
use position_key::{BoardKey, Packed};
use rules_model::{Move, Position, Repeat, Side};
use std::marker::Model;

/// What a fact says of its repeat.
#[derive(Clone, Copy)]
pub struct Claim {
    pub attacker: Side,
    pub moves: u16,
    pub counter: u16,
    pub best: Option<Move>,
    pub wins: bool,
}

impl Claim {
    /// What the fact says of its repeat.
    pub fn of(fact: &Fact) -> Claim
        ensures { result ≡ claim_of fact.now }
    {
        Claim {
            attacker: fact.attacker,
            moves: fact.moves,
            counter: fact.counter,
            best: fact.best,
            wins: fact.wins,
        }
    }

    /// The fact that says this of the repeat.
    pub fn with(&self, repeat: Repeat) -> Fact
        ensures { result ≡ fact_with repeat self.now }
    {
        Fact {
            repeat,
            attacker: self.attacker,
            moves: self.moves,
            counter: self.counter,
            best: self.best,
            wins: self.wins,
        }
    }
}

/// A fact whose repeat is packed. Contracts see the fact.
#[derive(Drop)]
pub struct PackedFact {
    claim: Claim,
    repeat: Packed,
}

impl Model for PackedFact {
    ghost use Rattle.forced_wins.specs.declared.fact.Fact.{Fact};
    ghost use Rattle.mate_core.specs.Claims.{fact_with};

    ghost Value = { Fact };

    ghost view = { λ f. fact_with f.repeat f.claim };
}

impl PackedFact {
    /// Packs the fact's repeat.
    pub fn of(fact: &Fact) -> PackedFact
        ensures { result ≡ fact.now }
    {
        PackedFact {
            claim: Claim::of(fact),
            repeat: Packed::of(&fact.repeat),
        }
    }

    /// The fact that says this of the position's repeat, where the key of its board and hands is known. No key is
    /// worked out from the board, and the repeat is not copied first.
    pub fn from_claim(p: &Position, key: BoardKey, claim: Claim) -> PackedFact
        requires { IsBoardKey key (repeat_of p.now) }
        ensures { result ≡ fact_with (repeat_of p.now) claim }
    {
        PackedFact {
            claim,
            repeat: Packed::with_key(p, key),
        }
    }

    /// The hash of its repeat.
    pub fn hash(&self) -> u64
        ensures { result ≡ hash_of self.now.repeat }
    {
        self.repeat.hash()
    }

    /// What it says of its repeat.
    pub fn claim(&self) -> Claim
        ensures { result ≡ claim_of self.now }
    {
        self.claim
    }

    /// Within how many of the attacker's moves.
    pub fn moves(&self) -> u16
        ensures { result ≡ self.now.moves }
    {
        self.claim.moves
    }

    /// Whether it is a win, and not a refutation.
    pub fn wins(&self) -> bool
        ensures { result ≡ self.now.wins }
    {
        self.claim.wins
    }

    // Whether it answers, for its own repeat, if the attacker wins at the counter within this many of his moves.
    fn covers(&self, counter: u16, moves: u16) -> bool
        ensures { result ≡ Facts.covers self.now self.now.wins counter moves }
    {
        if self.claim.wins {
            self.claim.moves <= moves && counter <= self.claim.counter
        } else {
            moves <= self.claim.moves && self.claim.counter <= counter
        }
    }

    /// Whether it says if the attacker wins the repeat at the counter within this many of his moves.
    #[tactic(auto, unfolding(forced_wins::specs::Facts::serves))]
    pub fn serves(&self, repeat: &Packed, counter: u16, moves: u16) -> bool
        ensures { result ≡ Facts.serves self.now repeat.now counter moves }
    {
        self.repeat.is(repeat) && self.covers(counter, moves)
    }

    /// Whether it is of the repeat and the kind of the other fact, and answers all that the other answers.
    #[tactic(auto, unfolding(crate::specs::Best::is_as_good, forced_wins::specs::Facts::serves))]
    pub fn is_as_good(&self, fact: &PackedFact) -> bool
        ensures { result ≡ Best.is_as_good self.now fact.now }
    {
        self.claim.wins == fact.claim.wins
            && (self.repeat.is(&fact.repeat) && self.covers(fact.claim.counter, fact.claim.moves))
    }
}
