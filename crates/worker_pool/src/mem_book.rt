//! Books in memory.

ghost use Rattle.std.specs.Prelude.{◌≡◌, [], Some};
ghost use Rattle.worker_pool.specs.Books.{Appended, Holds};

use crate::book::Book;
use crate::books::Books;
use crate::handled::Handled;
use std::alloc::Global;
use std::marker::Model;

/// A book in memory. It tells what it took, until it finds no memory for one more, which it drops.
#[derive(Drop)]
pub struct MemBook<L: Drop> {
    kept: Vec<Handled<L>>,
    whole: bool,
}

impl<L: Drop> Model for MemBook<L> {
    ghost use Rattle.std.specs.Prelude.{List, Option, Some, None, if◌then◌else◌};
    ghost use Rattle.worker_pool.specs.declared.handled.Handled.{Handled};

    ghost Value = { Option (List (Handled L)) };

    ghost view = { λ s. if s.whole then Some s.kept.items else None };
}

impl<L: Drop> MemBook<L> {
    /// An empty one.
    pub fn new(alloc: Global) -> MemBook<L>
        ensures { result ≡ Some [] }
    {
        MemBook {
            kept: Vec::new(alloc),
            whole: true,
        }
    }

    /// What it holds, in order.
    pub fn handled(&self) -> &[Handled<L>]
        ensures { Holds self.now result.now }
    {
        &self.kept
    }
}

impl<L: Drop + Send> Book<L> for MemBook<L> {
    ghost kept = { λ s. s };

    fn keep(&mut self, handled: Handled<L>)
        ensures appended { Appended self.old handled self.new }
    {
        if self.kept.push(handled).is_err() {
            self.whole = false;
        }
    }
}

/// It hands out books in memory.
#[derive(Drop)]
pub struct MemBooks {
    alloc: Global,
}

impl MemBooks {
    /// Makes one whose books take their memory from there.
    pub fn new(alloc: Global) -> MemBooks {
        MemBooks { alloc }
    }
}

impl<L: Drop + Send> Books<L> for MemBooks {
    type One = MemBook<L>;

    fn one(&mut self) -> MemBook<L>
        ensures { result ≡ Some [] }
    {
        MemBook::new(self.alloc)
    }
}
