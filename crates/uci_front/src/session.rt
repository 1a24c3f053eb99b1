//! What a UCI session keeps between lines, and what lines set.
ghost use Rattle.std.specs.Prelude.{◌≡◌, ◌≤◌, IfOk, OnOk, OnErr, Some, codes, unwrap_or};
ghost use Rattle.session_model.specs.declared.options.TheConstants.{LEAST_THREADS, MOST_THREADS};
ghost use Rattle.std.specs.Option.{option_copied};
ghost use Rattle.variant_rules.specs.Entries.{entries};
ghost use Rattle.session_model.specs.UciState as UciState;
ghost use Rattle.session_model.specs.UciState.{first_state};
ghost use Rattle.session_model.specs.UciTexts as UciTexts;
ghost use Rattle.uci_lines.specs.SettingView.{placing_seen, setting_seen};
ghost use Rattle.uci_front.specs.Outcomes.{IsNumber, IsOutcome, Starts};
ghost use Rattle.session_model.specs.UciSession.{announced, forgotten};
ghost use Rattle.thinking.specs.Views.{announced_seen};
ghost use Rattle.uci_front.specs.SessionView.{BeginsBuiltIn, IsPrintable};

use crate::moves::placed;
use crate::refusal::{Refusal, bad_value, refused_variant, unknown_variant};
use crate::texts::{NO_STRATEGY, uci_text};
use foundation::{Memory, Text};
use game_play::Game;
use proof_text::write_proof;
use session_model::options::{
    HASH, LEAST_HASH, LEAST_MATE_FACTS, LEAST_THREADS, MATE_FACTS, MOST_HASH, MOST_MATE_FACTS,
    MOST_THREADS, THREADS,
};
use std::alloc::Global;
use std::marker::Model;
use thinking::{AnnouncedMate, EngineState};
use uci_lines::{Placing, Setting, number};
use variant_ini::Sections;
use variant_rules::{Found, Variants, builtin, load};

/// What a UCI session keeps between lines: sections and their variants, the place of the variant that is set, the game,
/// the options with what searches remember, and the mate that was announced last.
#[derive(Drop)]
pub struct UciSession {
    sections: Sections,
    variants: Variants,
    place: usize,
    pub(crate) game: Game,
    pub(crate) engine: EngineState,
    kept: Option<AnnouncedMate>,
}

impl Model for UciSession {
    ghost use Rattle.session_model.specs.UciState.{State};
    ghost use Rattle.uci_front.specs.SessionView.{IsSession, state_of};

    ghost Value = { State };

    ghost view = { λ s. state_of s.sections s.place s.game s.engine s.kept };

    ghost invariant = { λ s. IsSession s.sections s.variants s.place s.game s.kept };
}

// The place of the variant of this name, and the start of a game by its rules.
fn start_in(
    alloc: Global,
    sections: &Sections,
    variants: &Variants,
    name: &[u8],
) -> Result<(usize, Game), Refusal>
    requires judged { variants.now ≡ entries sections.now }
    ensures { Starts sections.now name.now result }
{
    match variants.find(name) {
        Found::Rules(rules) => {
            let game = Game::new(alloc, rules, &rules.start)?;
            let place = sections.place_of(name).unwrap_or(0);
            Ok((place, game))
        }
        Found::Refused(fault) => Err(refused_variant(alloc, fault)),
        Found::Unknown => Err(unknown_variant(alloc, name)),
    }
}

// The number that the value of an option is, where it is one of a range.
fn number_said(low: u32, high: u32, value: Option<&[u8]>) -> Option<u32>
    ensures { result ≡ UciState.number_said low high (option_copied value.entry) }
{
    let read = number(value?)?;
    if u64::from(low) <= read && read <= u64::from(high) {
        Some(read as u32)
    } else {
        None
    }
}

/// The bytes of a text, where there is one.
pub(crate) fn bytes_of(value: &Option<Text>) -> Option<&[u8]>
    ensures { option_copied result ≡ value.now }
{
    match value {
        Some(text) => Some(text.items.as_slice()),
        None => None,
    }
}

// That number, or the fault of the option.
fn number_or_bad(
    alloc: Global,
    name: &[u8],
    low: u32,
    high: u32,
    value: &Option<Text>,
) -> Result<u32, Refusal>
    ensures { IsNumber name.now (UciState.number_said low high value.now) result }
{
    match number_said(low, high, bytes_of(value)) {
        Some(number) => Ok(number),
        None => Err(bad_value(alloc, name)),
    }
}

impl UciSession {
    /// A session of these sections, of which the first are those that are built in, with their variants: chess, this
    /// number of threads, and the other options as `uci` tells them.
    ///
    /// # Errors
    ///
    /// `Memory`.
    #[tactic(auto, unfolding(session_model::specs::UciState::first_state))]
    pub fn new(
        alloc: Global,
        sections: Sections,
        variants: Variants,
        threads: u32,
    ) -> Result<UciSession, Memory>
        requires begins { BeginsBuiltIn sections }
        requires judged { variants ≡ entries sections }
        requires threads { (LEAST_THREADS ≤ threads) × (threads ≤ MOST_THREADS) }
        ensures { IfOk result (λ session. first_state sections threads ≡ Some session) }
    {
        let engine = EngineState::new(alloc, threads)?;
        let (place, game) = match start_in(alloc, &sections, &variants, b"chess") {
            Ok(start) => start,
            Err(_) => return Err(Memory),
        };
        Ok(UciSession {
            sections,
            variants,
            place,
            game,
            engine,
            kept: None,
        })
    }

    // The place of the variant of this name, and the start of a game by its rules: by those of the game where the
    // variant is set already, so that no tables are made.
    fn start_of(&self, alloc: Global, name: &[u8]) -> Result<(usize, Game), Refusal>
        ensures { Starts self.now.sections name.now result }
    {
        if self.sections.place_of(name) == Some(self.place) {
            let game = self.game.another(alloc, &self.game.rules().start)?;
            return Ok((self.place, game));
        }
        start_in(alloc, &self.sections, &self.variants, name)
    }

    /// Sets the variant of this name, at its start.
    ///
    /// # Errors
    ///
    /// No section has the name, or the variant is refused; or there was no memory. The session is what it was.
    #[tactic(auto, unfolding(session_model::specs::UciState::set_variant))]
    pub(crate) fn set_variant(&mut self, alloc: Global, name: &[u8]) -> Result<(), Refusal>
        ensures outcome { IsOutcome (UciState.set_variant self.old self.old.sections name.now) self.new result }
        ensures refused { OnErr result (self.new ≡ self.old) }
    {
        let (place, game) = self.start_of(alloc, name)?;
        self.place = place;
        self.game = game;
        self.kept = None;
        Ok(())
    }

    /// Takes these sections in place of its own, and sets chess.
    ///
    /// # Errors
    ///
    /// As `set_variant`.
    #[tactic(auto, unfolding(session_model::specs::UciState::set_variant))]
    pub(crate) fn load(&mut self, alloc: Global, sections: Sections) -> Result<(), Refusal>
        ensures outcome { IsOutcome (UciState.set_variant self.old sections (codes "chess")) self.new result }
        ensures refused { OnErr result (self.new ≡ self.old) }
    {
        let variants = load(alloc, &sections)?;
        let (place, game) = start_in(alloc, &sections, &variants, b"chess")?;
        self.sections = sections;
        self.variants = variants;
        self.place = place;
        self.game = game;
        self.kept = None;
        Ok(())
    }

    /// Sets an option; `VariantPath` as if it named no file.
    ///
    /// # Errors
    ///
    /// The option does not take the value, or as `set_variant`. The session is what it was.
    #[tactic(auto, unfolding(session_model::specs::UciState::set))]
    pub(crate) fn set(&mut self, alloc: Global, setting: &Setting) -> Result<(), Refusal>
        ensures outcome { IsOutcome (UciState.set self.old (setting_seen setting.now)) self.new result }
        ensures refused { OnErr result (self.new ≡ self.old) }
    {
        match setting {
            Setting::Threads(value) => {
                let threads = number_or_bad(alloc, THREADS, LEAST_THREADS, MOST_THREADS, value)?;
                self.engine.set_threads(threads);
                Ok(())
            }
            Setting::Hash(value) => {
                let mib = number_or_bad(alloc, HASH, LEAST_HASH, MOST_HASH, value)?;
                self.engine.set_hash(alloc, mib)?;
                Ok(())
            }
            Setting::MateFacts(value) => {
                let facts = number_or_bad(
                    alloc,
                    MATE_FACTS,
                    LEAST_MATE_FACTS,
                    MOST_MATE_FACTS,
                    value,
                )?;
                self.engine.set_mate_facts(facts);
                Ok(())
            }
            Setting::VariantPath(_) => self.load(alloc, builtin(alloc)?),
            Setting::Variant(value) => { self.set_variant(alloc, bytes_of(value).unwrap_or(b"")) }
            Setting::Unknown => Ok(()),
        }
    }

    /// Sets the position of a line `position` and plays its moves.
    ///
    /// # Errors
    ///
    /// The first fault of the FEN or of the moves, or no position is named; or there was no memory. The session is what
    /// it was.
    pub(crate) fn place(&mut self, alloc: Global, placing: &Placing) -> Result<(), Refusal>
        ensures outcome { IsOutcome (UciState.place self.old (placing_seen placing.now)) self.new result }
        ensures refused { OnErr result (self.new ≡ self.old) }
    {
        self.game = placed(alloc, &self.game, placing)?;
        self.kept = None;
        Ok(())
    }

    /// Begins the game of the variant again, and forgets the hints of searches. After an error the session is what it
    /// was.
    pub(crate) fn new_game(&mut self, alloc: Global) -> Result<(), Memory>
        ensures begun { OnOk result (self.new ≡ UciState.new_game self.old) }
        ensures refused { OnErr result (self.new ≡ self.old) }
    {
        self.game = self.game.another(alloc, &self.game.rules().start)?;
        self.kept = None;
        self.engine.forget_hints();
        Ok(())
    }

    /// What `uci` answers.
    ///
    /// # Errors
    ///
    /// `Memory`.
    pub(crate) fn uci_text(&self, alloc: Global) -> Result<Text, Memory>
        ensures { IfOk result (λ text. text ≡ UciTexts.uci_text self.now.sections) }
    {
        uci_text(alloc, &self.variants)
    }

    /// What `strategy` answers: the proof text of the mate that was announced last.
    ///
    /// # Errors
    ///
    /// `Memory`.
    pub(crate) fn strategy_text(&self, alloc: Global) -> Result<Text, Memory>
        ensures { IfOk result (λ text. text ≡ UciTexts.strategy_text self.now self.now.kept) }
    {
        let Some(kept) = &self.kept else {
            let items = NO_STRATEGY.to_vec(alloc)?;
            return Ok(Text { items });
        };
        write_proof(
            alloc,
            &self.sections,
            self.place,
            &self.game,
            kept.moves,
            &kept.strategy,
        )
    }

    /// Forgets the mate that was announced last.
    pub(crate) fn forget_mate(&mut self)
        ensures { self.new ≡ forgotten self.old }
    {
        self.kept = None;
    }

    /// Keeps the mate that was announced last, if any.
    pub(crate) fn keep(&mut self, kept: Option<AnnouncedMate>)
        requires { IsPrintable self.old.game.rules kept }
        ensures { self.new ≡ announced self.old (announced_seen kept) }
    {
        self.kept = kept;
    }

    /// The game.
    pub(crate) fn game(&self) -> &Game
        ensures { result.now ≡ self.now.game }
    {
        &self.game
    }

    /// The number of threads.
    pub(crate) fn threads(&self) -> u32
        ensures is { result ≡ self.now.threads }
        ensures in_range { (LEAST_THREADS ≤ result) × (result ≤ MOST_THREADS) }
    {
        self.engine.threads()
    }
}
