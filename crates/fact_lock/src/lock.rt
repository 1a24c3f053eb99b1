//! The lock and its passes.
ghost use Rattle.std.specs.Prelude.{◌≡◌, ℕ, ◌+◌, ◌-◌, ◌*◌, ◌^◌, ◌<◌, ◌≤◌, [], ◌∷◌, ◌++◌, length, IfOk, Some};
ghost use mathlib.Core.List.{IsPrefix};
ghost use Rattle.fact_lock.specs.declared.view.Stage.TheVariants.{Rests, Waits, Acts};
ghost use Rattle.fact_lock.specs.Rule.{IsServed, HasTurn, at_stage, grown};
ghost use Rattle.fact_lock.specs.Passes.{IsPassOf, Turn, OwnsSeen, AreApart, entries, times, all_parts, longer};

use crate::journal::Journal;
use crate::rule::{Both, Draw, Look, OnePart, PassOn, Raise, Settle, Turns};
use crate::view::View;
use atomic_table::{Refused, Table};
use crossbeam_utils::Backoff;
use foundation::Memory;
use std::alloc::Global;
use std::marker::Model;
use std::snapshot::Snapshot;
use std::sync::Wait;

// The words of the table: the number of entries, the next ticket, and the ticket that is served.
const ENTRIES: usize = 0;

const TICKET: usize = 1;

const SERVING: usize = 2;

// The slot with the value.
const VALUE: usize = 0;

type Seat<V> = atomic_table::Seat<Option<V>, View<<V as Journal>::Key, <V as Journal>::Entry>>;

/// A value that threads act on in turn, each in the order of its ticket. Contracts see the lock's name and key.
#[derive(Drop)]
pub struct Lock<V: Journal> {
    table: Table<Option<V>, View<V::Key, V::Entry>, Snapshot<V>, Turns<V>, Global>,
}

impl<V: Journal> Model for Lock<V> {
    ghost use Rattle.std.specs.Prelude.{◌≡◌};
    ghost use Rattle.fact_lock.specs.Passes.{LockView};

    ghost Value = { LockView V.Key };

    ghost view = { λ lock. record { id = lock.table.shared.table_id; key = V.key lock.table.shared.key.value } };

    ghost invariant = { λ lock. (lock.table.shared.table_id.words ≡ 3) × (lock.table.shared.table_id.slots ≡ 1) };
}

/// The right to act on the value of one lock, and what is known of its list. It has no bytes.
///
/// The passes of a lock have 65,536 parts together. A pass that is dropped takes its parts with it.
#[derive(Drop)]
pub struct Pass<V: Journal> {
    seat: Seat<V>,
}

impl<V: Journal> Model for Pass<V> {
    ghost use Rattle.fact_lock.specs.Passes.{PassView};
    ghost use Rattle.fact_lock.specs.Rule.{IsReady};

    ghost Value = { PassView V.Key V.Entry };

    ghost view = { λ pass. record {
      lock = pass.seat.table_id;
      key = pass.seat.me.0.key;
      seen = pass.seat.me.0.seen;
      own = pass.seat.me.0.own;
      parts = pass.seat.me.0.parts;
    } };

    ghost invariant = { λ pass. IsReady pass.seat.me };
}

impl<V: Journal + Drop> Lock<V> {
    /// Puts a value under a new lock. The pass has seen the value's list, owns no entry and has all parts.
    ///
    /// # Errors
    ///
    /// `Memory` where there is none; the value is then dropped.
    pub fn new(alloc: Global, value: V) -> Result<(Lock<V>, Pass<V>), Memory>
        ensures key { IfOk result (λ made. made.0.key ≡ V.key value) }
        ensures pass { IfOk result (λ made. IsPassOf made.0 made.1 × (made.1.seen ≡ V.list value) × (made.1.own ≡ [])
            × (made.1.parts ≡ all_parts)) }
    {
        let first = Snapshot::of(&value);
        let entries = value.len();
        let mut slots = Vec::with_capacity(alloc, 1)?;
        slots.push_reserved(Some(value));
        match Table::new(alloc, &[entries, 0, 0], slots, &first) {
            Ok((table, seat)) => Ok((Lock { table }, Pass { seat })),
            Err(Refused { slots: _ }) => Err(Memory),
        }
    }
}

impl<V: Journal> Lock<V> {
    /// Waits for its ticket, acts once on the value and passes the turn on. It takes no memory.
    ///
    /// The pass has then seen the whole list, and an entry that was added is its own. Once 2^64 - 1 tickets
    /// are drawn, it waits for good.
    pub fn with<R: Wait>(&self, rt: &R, pass: &mut Pass<V>, op: V::Op) -> V::Reply
        requires lock { IsPassOf self.now pass.old }
        requires fits { V.fits self.now.key op }
        ensures lock { IsPassOf self.now pass.new }
        ensures parts { pass.new.parts ≡ pass.old.parts }
        ensures turn { Turn V.reply V.added self.now.key pass.old op result pass.new }
        ensures holds { V.holds self.now.key pass.new.seen }
        ensures places { OwnsSeen pass.new }
    {
        let seat = &mut pass.seat;
        let ticket = self.draw(rt, seat);
        self.wait(rt, seat, ticket);
        let reply = self.turn(seat, op);
        self.table.shared.fetch_add::<PassOn<V>>(seat, SERVING, 1);
        reply
    }

    // Draws a ticket, once the next one is the one that is served. So a thread that the system has put aside seldom
    // holds a ticket for which others wait. The last ticket, 2^64 - 1, is never drawn, since 0 would follow it.
    fn draw<R: Wait>(&self, rt: &R, seat: &mut Seat<V>) -> u64
        requires table { seat.old.table_id ≡ self.now.id }
        requires rests { seat.old.me.0.stage ≡ Rests }
        requires parts { 0 < seat.old.me.0.parts }
        ensures seat { (seat.new.table_id ≡ seat.old.table_id) × (seat.new.id ≡ seat.old.id) }
        ensures drawn { seat.new.me ≡ (at_stage seat.old.me.0 (Waits result), seat.old.me.1) }
    {
        let shared = &self.table.shared;
        let backoff = Backoff::new();
        for _ in rt.forever() {
            let next = shared.peek(TICKET);
            if next == u64::MAX || shared.peek(SERVING) != next {
                backoff.snooze();
            } else if shared.compare_exchange::<Draw<V>>(seat, TICKET, next, next + 1) == next {
                return next;
            }
        }
        unreachable!()
    }

    // Waits until the ticket is served, and takes the value out.
    fn wait<R: Wait>(&self, rt: &R, seat: &mut Seat<V>, ticket: u64)
        requires table { seat.old.table_id ≡ self.now.id }
        requires waits { seat.old.me.0.stage ≡ Waits ticket }
        ensures seat { (seat.new.table_id ≡ seat.old.table_id) × (seat.new.id ≡ seat.old.id) }
        ensures served { IsServed V.key V.list ticket seat.old.me seat.new.me }
    {
        let backoff = Backoff::new();
        for _ in rt.forever() {
            if self.table.shared.load::<Look<V>>(seat, SERVING) == ticket {
                return;
            }
            backoff.snooze();
        }
        unreachable!()
    }

    // Acts on the value that the seat has, and counts the entry that was added.
    fn turn(&self, seat: &mut Seat<V>, op: V::Op) -> V::Reply
        requires table { seat.old.table_id ≡ self.now.id }
        requires turn { HasTurn V.key V.list self.now.key seat.old.me }
        requires fits { V.fits self.now.key op }
        ensures seat { (seat.new.table_id ≡ seat.old.table_id) × (seat.new.id ≡ seat.old.id) }
        ensures turn { HasTurn V.key V.list self.now.key seat.new.me }
        ensures answer { result ≡ V.reply self.now.key seat.old.me.0.seen op }
        ensures added { let new = entries (V.added self.now.key seat.old.me.0.seen op) in seat.new.me.0
            ≡ grown seat.old.me.0 (seat.old.me.0.seen ++ new) (length new) }
        ensures holds { V.holds self.now.key seat.new.me.0.seen }
        ensures once { (p : ℕ) → times p seat.new.me.0.own ≤ 1 }
    {
        let shared = &self.table.shared;
        let mut value = shared.exchange(seat, VALUE, None).unwrap();
        let before = value.len();
        let reply = value.act(op);
        let added = value.len() - before;
        let left = shared.exchange(seat, VALUE, Some(value));
        let None = left else { unreachable!() };
        shared.fetch_add::<Raise<V>>(seat, ENTRIES, added);
        reply
    }

    /// Cuts one part off, for another thread. The first pass keeps the own entries; both have seen as much.
    /// It neither waits nor takes memory.
    pub fn split(&self, pass: Pass<V>) -> (Pass<V>, Pass<V>)
        requires lock { IsPassOf self.now pass }
        requires parts { 2 ≤ pass.parts }
        ensures lock { IsPassOf self.now result.0 × IsPassOf self.now result.1 }
        ensures seen { (result.0.seen ≡ pass.seen) × (result.1.seen ≡ pass.seen) }
        ensures own { (result.0.own ≡ pass.own) × (result.1.own ≡ []) }
        ensures places { OwnsSeen result.0 }
        ensures parts { (result.0.parts + 1 ≡ pass.parts) × (result.1.parts ≡ 1) }
    {
        let Pass { mut seat } = pass;
        let given = self.table.shared.split_seat::<OnePart>(&mut seat);
        (Pass { seat }, Pass { seat: given })
    }

    /// Makes two passes one, which has seen what either had, and owns what both did. It neither waits nor takes memory.
    pub fn join(&self, a: Pass<V>, b: Pass<V>) -> Pass<V>
        requires locks { IsPassOf self.now a × IsPassOf self.now b }
        ensures lock { IsPassOf self.now result }
        ensures longer { result.seen ≡ longer a.seen b.seen }
        ensures seen { IsPrefix a.seen result.seen × IsPrefix b.seen result.seen }
        ensures own { result.own ≡ a.own ++ b.own }
        ensures apart { AreApart a.own b.own }
        ensures places { OwnsSeen result }
        ensures parts { result.parts ≡ a.parts + b.parts }
    {
        let Pass { mut seat } = a;
        let Pass { seat: other } = b;
        let shared = &self.table.shared;
        shared.join_seat::<Both>(&mut seat, other);
        shared.load::<Settle<V>>(&mut seat, ENTRIES);
        Pass { seat }
    }

    /// Ends the lock, for the pass with all parts, which is then the only one. It takes no memory.
    pub fn close(self, pass: Pass<V>) -> V
        requires lock { IsPassOf self pass }
        requires parts { pass.parts ≡ all_parts }
        ensures key { V.key result ≡ self.key }
        ensures list { IsPrefix pass.seen (V.list result) }
    {
        let Lock { table } = self;
        let Pass { seat } = pass;
        let mut closed = table.close_with(seat);
        let value = closed.take(VALUE).unwrap();
        closed.free();
        value
    }
}
