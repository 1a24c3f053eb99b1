//! The facts of all shards, and which worker knows which.
use crate::frame::Frame;
use forced_wins::Fact;
use std::marker::Model;

/// A list of facts, the oldest first.
#[derive(Drop)]
pub struct FactList {
    pub items: Vec<Fact>,
}

impl Model for FactList {
    ghost use Rattle.std.specs.Prelude.{List};
    ghost use Rattle.forced_wins.specs.declared.fact.Fact.{Fact};

    ghost Value = { List Fact };

    ghost view = { λ list. list.items.items };
}

/// One list of facts for each shard.
#[derive(Drop)]
pub struct FactLists {
    pub items: Vec<FactList>,
}

impl Model for FactLists {
    ghost use Rattle.std.specs.Prelude.{List};
    ghost use Rattle.forced_wins.specs.declared.fact.Fact.{Fact};

    ghost Value = { List (List Fact) };

    ghost view = { λ lists. lists.items.items };
}

/// A fact that a worker has published or found.
#[derive(Clone, Copy)]
pub struct Known {
    pub worker: u32,
    pub fact: Fact,
}

/// What the workers know, the oldest first.
#[derive(Drop)]
pub struct KnownList {
    pub items: Vec<Known>,
}

impl Model for KnownList {
    ghost use Rattle.std.specs.Prelude.{List};
    ghost use Rattle.mate_core.specs.declared.store.Known.{Known};

    ghost Value = { List Known };

    ghost view = { λ known. known.items.items };
}

/// The whole state that workers share.
#[derive(Drop)]
pub struct Store {
    pub frame: Frame,
    /// How many facts a shard's list may have.
    pub capacity: u32,
    pub shards: FactLists,
    pub known: KnownList,
}
