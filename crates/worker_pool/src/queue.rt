//! The queue between acceptors and workers, whose rule accounts for each item.

use crossbeam_queue::protocol::{Join, Lesson, Outcome, Protocol, Split};
use crossbeam_queue::{Pass, RuledArrayQueue};
use std::collections::LinkedList;

/// What the holder of a pass has put and taken, and its parts of the right to know the whole. No
/// value of it is made.
pub struct Ledger<T> {
    /// How many of the parts of all passes are this one's.
    pub parts: u64,
    /// The items that were put by this pass, in order.
    pub put: LinkedList<T>,
    /// The items that were taken by this pass, in order.
    pub taken: LinkedList<T>,
}

/// The rule: what all passes have put is what they have taken and what the queue holds.
pub(crate) struct Balance;

impl<T> Protocol<T, Ledger<T>> for Balance {
    ghost use Rattle.std.specs.Prelude.{[]};
    ghost use Rattle.worker_pool.specs.Queue.{Balanced, ledger, whole};

    ghost holds = { Balanced };

    ghost first = { ledger whole [] [] };
}

/// One part goes to a new pass, and a pass that is taken back gives up all that it has.
pub(crate) struct Cut;

impl<T> Split<Ledger<T>> for Cut {
    ghost use Rattle.std.specs.Prelude.{◌-◌, []};
    ghost use Rattle.worker_pool.specs.Queue.{ledger};

    ghost left = { λ v. ledger (v.parts - 1) v.put v.taken };

    ghost right = { λ v. ledger 1 [] [] };
}

impl<T> Join<Ledger<T>> for Cut {
    ghost use Rattle.std.specs.Prelude.{◌+◌, ◌++◌, []};
    ghost use Rattle.worker_pool.specs.Queue.{ledger};

    ghost both = { λ v w. ledger (v.parts + w.parts) (v.put ++ w.put) (v.taken ++ w.taken) };

    ghost spent = { ledger 0 [] [] };
}

/// An item is put by this pass.
pub(crate) struct Puts;

impl<T> Outcome<T, Ledger<T>> for Puts {
    ghost use Rattle.worker_pool.specs.Queue.{HasPut};

    ghost then = { HasPut };
}

impl<T> Lesson<T, Ledger<T>> for Puts {
    ghost use Rattle.worker_pool.specs.Queue.{IsTotal};

    ghost fact = { IsTotal };
}

/// An item is taken by this pass.
pub(crate) struct Takes;

impl<T> Outcome<T, Ledger<T>> for Takes {
    ghost use Rattle.worker_pool.specs.Queue.{HasTaken};

    ghost then = { HasTaken };
}

impl<T> Lesson<T, Ledger<T>> for Takes {
    ghost use Rattle.worker_pool.specs.Queue.{IsTotal};

    ghost fact = { IsTotal };
}

/// A bounded queue under this rule.
pub(crate) type Queue<T> = RuledArrayQueue<T, Ledger<T>, Balance>;

/// A pass of such a queue.
pub(crate) type QueuePass<T> = Pass<T, Ledger<T>>;
