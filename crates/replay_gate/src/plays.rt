//! What each step on the table tells, and how views are cut and joined. These types are for proofs
//! alone.

ghost use Rattle.std.specs.Prelude.{ℕ};
ghost use Rattle.munge_types.specs.declared.history.Event.{Event};
ghost use Rattle.munge_types.specs.declared.history.Event.TheVariants.{Idle};
ghost use Rattle.replay_gate.specs.Steps.{Asked, Drew, Looked, Left, Met};
ghost use Rattle.replay_gate.specs.Views.{left_part, given_part, merged, gone};

use crate::view::View;
use atomic_table::{Join, Play, Split};
use munge_types::Replay;
use std::marker::{Brand, PhantomData};

/// The ticket word is read.
pub(crate) struct Ask;

impl<S> Play<S, View> for Ask {
    ghost then = { λ step before found after. Asked before found after };
}

/// A ticket is drawn.
pub(crate) struct Draw;

impl<S> Play<S, View> for Draw {
    ghost then = { λ step before found after. Drew before found after };
}

/// The serving word is read.
pub(crate) struct Look;

impl<R: Replay> Play<R, View> for Look {
    ghost then = { λ step before found after. Looked R.remembered before found after };
}

/// Which entry a call adds. Each call picks it.
pub(crate) trait Entered {
    ghost use Rattle.munge_types.specs.declared.history.Event.{Event};

    ghost entry: { Event };
}

impl Entered for Brand {
    ghost use Rattle.munge_types.specs.declared.history.Event.TheVariants.{Idle};

    ghost entry = { Idle 0 };
}

/// The turn is given up, and the entry added.
pub(crate) struct Leave<E> {
    entry: PhantomData<E>,
}

impl<S, E: Entered> Play<S, View> for Leave<E> {
    ghost then = { λ step before found after. Left E.entry before after };
}

/// Two passes were joined, and what both had seen is compared.
pub(crate) struct Compare;

impl<S> Play<S, View> for Compare {
    ghost then = { λ step before found after. Met before after };
}

/// How many numbers a pass gives away. Each call picks it.
pub(crate) trait Counted {
    ghost count: { ℕ };
}

impl Counted for Brand {
    ghost count = { 0 };
}

/// The last numbers of a pass go to a new one.
pub(crate) struct Give<C> {
    count: PhantomData<C>,
}

impl<C: Counted> Split<View> for Give<C> {
    ghost left = { left_part C.count };

    ghost right = { given_part C.count };
}

/// A pass takes another in.
pub(crate) struct Merge;

impl Join<View> for Merge {
    ghost both = { merged };

    ghost spent = { gone };
}
