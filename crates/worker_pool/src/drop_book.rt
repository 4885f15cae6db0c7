//! Books that keep nothing.

ghost use Rattle.std.specs.Prelude.{None};
ghost use Rattle.worker_pool.specs.Books.{Appended};

use crate::book::Book;
use crate::books::Books;
use crate::handled::Handled;

/// It drops what it takes, which closes the connection, and tells nothing.
#[derive(Clone, Copy, Debug)]
pub struct DropBook;

impl DropBook {
    /// One that has dropped nothing yet.
    pub fn new() -> DropBook {
        DropBook
    }
}

impl<L: Drop> Book<L> for DropBook {
    ghost use Rattle.std.specs.Prelude.{None};

    ghost kept = { λ s. None };

    fn keep(&mut self, handled: Handled<L>)
        ensures appended { Appended None handled None }
    {
        drop(handled);
    }
}

/// It hands out books that keep nothing.
#[derive(Clone, Copy, Debug)]
pub struct DropBooks;

impl DropBooks {
    /// Makes one, without memory.
    pub fn new() -> DropBooks {
        DropBooks
    }
}

impl<L: Drop> Books<L> for DropBooks {
    type One = DropBook;

    fn one(&mut self) -> DropBook {
        DropBook
    }
}
