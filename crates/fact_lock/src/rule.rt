//! The rule of the lock's table, and what each step tells.
use crate::journal::Journal;
use crate::view::View;
use atomic_table::{Join, Play, Split, TableRule};
use std::marker::PhantomData;
use std::snapshot::Snapshot;

pub struct Turns<V> {
    value: PhantomData<V>,
}

impl<V: Journal> TableRule<Option<V>, View<V::Key, V::Entry>, Snapshot<V>> for Turns<V> {
    ghost use Rattle.fact_lock.specs.Rule.{Kept, opening_view};

    ghost holds = { λ first. Kept V.key V.list (V.key first.value) };

    ghost first = { λ first. opening_view (V.key first.value) (V.list first.value) };
}

/// Draws a ticket.
pub struct Draw<V> {
    value: PhantomData<V>,
}

impl<V: Journal> Play<Option<V>, View<V::Key, V::Entry>> for Draw<V> {
    ghost use Rattle.fact_lock.specs.Rule.{drawn};

    ghost then = { drawn V.key V.list };
}

/// Looks whether the turn has come, and takes the value out if it has.
pub struct Look<V> {
    value: PhantomData<V>,
}

impl<V: Journal> Play<Option<V>, View<V::Key, V::Entry>> for Look<V> {
    ghost use Rattle.fact_lock.specs.Rule.{looked};

    ghost then = { looked V.key V.list };
}

/// Counts the entry that was added, if one was.
pub struct Raise<V> {
    value: PhantomData<V>,
}

impl<V: Journal> Play<Option<V>, View<V::Key, V::Entry>> for Raise<V> {
    ghost use Rattle.fact_lock.specs.Rule.{raised};

    ghost then = { raised V.key V.list };
}

/// Gives the value back and the ticket up.
pub struct PassOn<V> {
    value: PhantomData<V>,
}

impl<V: Journal> Play<Option<V>, View<V::Key, V::Entry>> for PassOn<V> {
    ghost use Rattle.fact_lock.specs.Rule.{passed};

    ghost then = { passed V.key V.list };
}

/// Sees what a joined seat had seen.
pub struct Settle<V> {
    value: PhantomData<V>,
}

impl<V: Journal> Play<Option<V>, View<V::Key, V::Entry>> for Settle<V> {
    ghost use Rattle.fact_lock.specs.Rule.{settled};

    ghost then = { settled V.key V.list };
}

/// Gives one part away.
pub struct OnePart;

impl<K, E> Split<View<K, E>> for OnePart {
    ghost use Rattle.fact_lock.specs.Rule.{kept_half, given_half};

    ghost left = { kept_half };

    ghost right = { given_half };
}

/// Makes two seats one.
pub struct Both;

impl<K, E> Join<View<K, E>> for Both {
    ghost use Rattle.fact_lock.specs.Rule.{joined, nobody};

    ghost both = { joined };

    ghost spent = { nobody };
}
