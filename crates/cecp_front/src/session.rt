//! What a session keeps between lines.
ghost use Rattle.std.specs.Prelude.{◌≡◌, ◌++◌, ◌≤◌, IfOk, List, Some};
ghost use Rattle.session_model.specs.CecpState as CecpState;
ghost use Rattle.session_model.specs.declared.options.TheConstants.{LEAST_THREADS, MOST_THREADS};
ghost use Rattle.variant_ini.specs.Section.{Section};
ghost use Rattle.variant_model.specs.Builtin.{builtin_sections};
ghost use Rattle.variant_rules.specs.Entries.{entries};

use foundation::Memory;
use game_play::Game;
use rules_model::Side;
use std::alloc::Global;
use std::marker::Model;
use thinking::EngineState;
use variant_ini::Sections;
use variant_rules::{Found, Variants};

/// A CECP session: its game, what its lines have set, and what its searches keep.
#[derive(Drop)]
pub struct CecpSession {
    pub(crate) sections: Sections,
    pub(crate) variants: Variants,
    pub(crate) game: Game,
    /// A game of chess, by whose rules and tables `new` begins one.
    pub(crate) chess: Game,
    /// The side that the engine plays, if any.
    pub(crate) plays: Option<Side>,
    /// Thinking output is on.
    pub(crate) posts: bool,
    pub(crate) sd: Option<u64>,
    pub(crate) st: Option<u64>,
    /// The moves of a session, and the increment in seconds.
    pub(crate) level: Option<(u64, u64)>,
    /// The centiseconds that are left.
    pub(crate) time: Option<u64>,
    /// A move ended the game, which has not changed since but by moves.
    pub(crate) is_over: bool,
    pub(crate) engine: EngineState,
}

impl Model for CecpSession {
    ghost use Rattle.session_model.specs.CecpState.{State};
    ghost use Rattle.cecp_front.specs.SessionView.{IsSession};

    ghost Value = { State };

    ghost view = { λ s. record {
      sections = s.sections;
      game = s.game;
      plays = s.plays;
      posts = s.posts;
      sd = s.sd;
      st = s.st;
      level = s.level;
      time = s.time;
      is_over = s.is_over;
    } };

    ghost invariant = { λ s. IsSession s.sections s.variants s.chess };
}

impl CecpSession {
    /// A session that begins with chess, its start and the engine playing Black, without thinking output and without
    /// limits. The sections begin with those that are built in, and the variants were loaded from them; from 1 to 64
    /// workers search.
    ///
    /// # Errors
    ///
    /// `Memory`.
    pub fn new(
        alloc: Global,
        sections: Sections,
        variants: Variants,
        threads: u32,
    ) -> Result<CecpSession, Memory>
        requires begins { (more : List Section) × (sections ≡ builtin_sections ++ more) }
        requires loaded { variants ≡ entries sections }
        requires threads { (LEAST_THREADS ≤ threads) × (threads ≤ MOST_THREADS) }
        ensures { IfOk result (λ session. CecpState.first_state sections ≡ Some session) }
    {
        let engine = EngineState::new(alloc, threads)?;
        let chess = match variants.find(b"chess") {
            Found::Rules(rules) => Game::new(alloc, rules, &rules.start)?,
            Found::Refused(_) | Found::Unknown => unreachable!(),
        };
        let game = chess.another(alloc, &chess.rules().start)?;
        Ok(CecpSession {
            sections,
            variants,
            game,
            chess,
            plays: Some(Side::Black),
            posts: false,
            sd: None,
            st: None,
            level: None,
            time: None,
            is_over: false,
            engine,
        })
    }
}
