//! Where a worker hands what it has served.

ghost use Rattle.std.specs.Prelude.{List, Option};
ghost use Rattle.worker_pool.specs.Books.{Appended};
ghost use Rattle.worker_pool.specs.declared.handled.Handled.{Handled};

use crate::handled::Handled;

/// It takes what a worker has served, one connection after the other.
pub trait Book<L: Drop>: Send {
    // What it took, in order, where the book tells it.
    ghost kept: { Self → Option (List (Handled L)) };

    /// Takes it. Where the book tells afterwards, it told before, and this was appended.
    fn keep(&mut self, handled: Handled<L>)
        ensures appended { Appended (kept self.old) handled (kept self.new) };
}
