//! A shard as a value under a lock.
ghost use Rattle.std.specs.Prelude.{◌≡◌};
ghost use Rattle.mate_shards.specs.Shard.{Fits, IsListOf, reply, added};

use crate::request::{Answer, Request};
use crate::shard::Shard;
use fact_lock::Journal;
use mate_core::{Fact, Frame};

impl Journal for Shard {
    type Key = (Frame, u32);

    type Entry = Fact;

    type Op = Request;

    type Reply = Answer;

    ghost key = { λ shard. (shard.frame.value, shard.capacity) };

    ghost list = { λ shard. shard.facts.items };

    ghost fits = { Fits };

    ghost holds = { IsListOf };

    ghost reply = { reply };

    ghost added = { added };

    fn act(&mut self, request: Request) -> Answer {
        match request {
            Request::Publish(fact) => Answer::Published(self.publish(fact)),
            Request::Look(query) => Answer::Found(self.look(&query)),
        }
    }

    fn len(&self) -> u64 {
        self.facts.len() as u64
    }
}
