//! Where books come from.

ghost use Rattle.std.specs.Prelude.{[]};
ghost use Rattle.worker_pool.specs.Books.{Holds};

use crate::book::Book;

/// It hands out books, one for each worker.
pub trait Books<L: Drop> {
    /// A book of these.
    type One: Book<L>;

    /// The next book, which is empty where it tells.
    fn one(&mut self) -> Self::One
        ensures empty { Holds (Self.One.kept result) [] };
}
