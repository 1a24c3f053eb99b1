//! What a session keeps for its searches.
ghost use Rattle.std.specs.Prelude.{◌≡◌, ◌≤◌, OnOk, OnErr, IfOk};
ghost use Rattle.session_model.specs.declared.options.TheConstants.{LEAST_HASH, LEAST_MATE_FACTS, LEAST_THREADS, MOST_HASH, MOST_MATE_FACTS, MOST_THREADS};
ghost use Rattle.thinking.specs.Settings.{first_settings};

use crate::shared_facts::SharedFacts;
use foundation::Memory;
use hint_table::HintTable;
use mate_core::Frame;
use session_model::options::{DEFAULT_HASH, DEFAULT_MATE_FACTS};
use std::alloc::Global;
use std::marker::Model;

/// How many words of hints fill a MiB.
const WORDS: usize = 1 << 17;

/// The hints and facts of a session's searches, and what it sets for them. Contracts see what it sets.
#[derive(Drop)]
pub struct EngineState {
    hints: HintTable,
    /// Whether the hints are as large as is set. At first they are not: making them would take most of a session's
    /// start.
    is_made: bool,
    facts: Option<SharedFacts>,
    threads: u32,
    hash: u32,
    mate_facts: u32,
}

impl Model for EngineState {
    ghost use Rattle.thinking.specs.Settings.{Settings, AreInRange};

    ghost Value = { Settings };

    ghost view = { λ m. record { threads = m.threads; hash = m.hash; mate_facts = m.mate_facts } };

    ghost invariant = { λ m. AreInRange (record { threads = m.threads; hash = m.hash; mate_facts = m.mate_facts }) };
}

impl EngineState {
    /// Without a hint, with 4,096 facts a shard and 16 MiB for hints, which the first search or solve takes. From 1 to
    /// 64 workers search.
    ///
    /// # Errors
    ///
    /// `Memory`.
    pub fn new(alloc: Global, threads: u32) -> Result<EngineState, Memory>
        requires threads { (LEAST_THREADS ≤ threads) × (threads ≤ MOST_THREADS) }
        ensures { IfOk result (λ m. m ≡ first_settings threads) }
    {
        Ok(EngineState {
            hints: HintTable::new(alloc, 1)?,
            is_made: false,
            facts: None,
            threads,
            hash: DEFAULT_HASH,
            mate_facts: DEFAULT_MATE_FACTS,
        })
    }

    /// How many workers search.
    pub fn threads(&self) -> u32
        ensures is { result ≡ self.now.threads }
        ensures in_range { (LEAST_THREADS ≤ result) × (result ≤ MOST_THREADS) }
    {
        self.threads
    }

    /// Makes the hints as large as is set, where that was not done yet. Out of memory, all stays as it was.
    ///
    /// The contract does not say that they are made: hints change the time of a search and nothing else, so no contract
    /// sees how many words a table has.
    pub(crate) fn make_hints(&mut self, alloc: Global) -> Result<(), Memory>
        ensures { self.new ≡ self.old }
    {
        if !self.is_made {
            self.hints = HintTable::new(alloc, self.hash as usize * WORDS)?;
            self.is_made = true;
        }
        Ok(())
    }

    /// The hints, which searches share.
    pub(crate) fn hints(&self) -> &HintTable {
        &self.hints
    }

    /// Sets how many workers search, from 1 to 64.
    pub fn set_threads(&mut self, threads: u32)
        requires threads { (LEAST_THREADS ≤ threads) × (threads ≤ MOST_THREADS) }
        ensures { self.new ≡ record self.old { threads = threads } }
    {
        self.threads = threads;
    }

    /// Sets the MiB of hints, from 1 to 1,024, takes them at once, and forgets the hints. Out of memory, all stays as
    /// it was.
    pub fn set_hash(&mut self, alloc: Global, hash: u32) -> Result<(), Memory>
        requires hash { (LEAST_HASH ≤ hash) × (hash ≤ MOST_HASH) }
        ensures ok { OnOk result (self.new ≡ record self.old { hash = hash }) }
        ensures err { OnErr result (self.new ≡ self.old) }
    {
        let hints = HintTable::new(alloc, hash as usize * WORDS)?;
        self.hints = hints;
        self.is_made = true;
        self.hash = hash;
        Ok(())
    }

    /// Sets how many facts of mates a shard keeps, from 16 to 65,536, and forgets them.
    pub fn set_mate_facts(&mut self, mate_facts: u32)
        requires facts { (LEAST_MATE_FACTS ≤ mate_facts) × (mate_facts ≤ MOST_MATE_FACTS) }
        ensures { self.new ≡ record self.old { mate_facts = mate_facts } }
    {
        self.facts = None;
        self.mate_facts = mate_facts;
    }

    /// Forgets the hints. Facts of mates stay, since they are true of every game by the same rules.
    pub fn forget_hints(&mut self)
        ensures { self.new ≡ self.old }
    {
        self.hints.fill(0);
    }

    /// Takes out the facts that are true in the frame. Out of memory, they are forgotten.
    pub(crate) fn take_facts(&mut self, alloc: Global, frame: Frame) -> Result<SharedFacts, Memory>
        ensures same { self.new ≡ self.old }
        ensures frame { IfOk result (λ facts. facts ≡ frame) }
    {
        match self.facts.take() {
            Some(facts) => facts.rebased(frame),
            None => SharedFacts::new(alloc, frame, self.mate_facts),
        }
    }

    /// Keeps facts for the next solve.
    pub(crate) fn put_facts(&mut self, facts: SharedFacts)
        ensures { self.new ≡ self.old }
    {
        self.facts = Some(facts);
    }
}
