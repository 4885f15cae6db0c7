//! The workers of a daemon before they begin, and when they have ended.

ghost use Rattle.std.specs.Prelude.{
  ◌≡◌,
  ◌+◌,
  ◌≤◌,
  ◌∷◌,
  [],
  IfOk,
  OnOk,
  length,
  map,
  reverse,
  vec_capacity,
  vec_len,
};
ghost use Rattle.std.specs.List.{All};
ghost use Rattle.worker_pool.specs.Books.{Holds};
ghost use Rattle.worker_pool.specs.Cases.{link_sight};
ghost use Rattle.worker_pool.specs.Dealing.{IsHome};
ghost use Rattle.worker_pool.specs.Desks.{IsNewDesk, desk_sight};
ghost use Rattle.worker_pool.specs.Joining.{OnceEach};
ghost use Rattle.worker_pool.specs.Meeting.{CountedAll, IsMetInto, latest};
ghost use Rattle.worker_pool.specs.Single.{IsSingle};

use crate::book::Book;
use crate::desk::{Desk, later};
use crate::tally::Tally;
use byte_io::{Clock, Link};
use cred_seal::Dice;
use munge_types::{NoMemory, Replay};
use replay_gate::{Gate, Pass};
use std::alloc::Global;

/// A worker for each seed, with the clock and the book at its place. The last worker stands first,
/// so that they are taken off the end in their order.
pub(crate) fn new_desks<L, C, B, R>(
    alloc: Global,
    gate: &Gate<R>,
    home: &mut Pass,
    mut clocks: Vec<C>,
    mut seeds: Vec<[u8; 32]>,
    mut books: Vec<B>,
) -> Result<Vec<Desk<C, B>>, NoMemory>
where
    L: Link + Drop,
    C: Clock + Drop,
    B: Book<L> + Drop,
    R: Replay + Drop,
    requires home { IsHome gate.now (length seeds.items) home.old }
    requires clocks { length clocks.items ≡ length seeds.items }
    requires books { length books.items ≡ length seeds.items }
    requires empty { All (λ book. Holds (B.kept book) []) books.items }
    ensures home { OnOk result (IsSingle gate.now home.new) }
    ensures seen { OnOk result (home.new.seen ≡ []) }
    ensures desks { let sight = desk_sight
        (link_sight L.left L.ends L.taken L.rings L.read_faults L.write_faults)
        C.readings C.last_reading C.given C.clock_faults B.kept in
        IfOk result (λ desks. All (IsNewDesk sight gate.now) desks.items) }
    ensures clocks { IfOk result (λ desks.
        map (λ d. d.clock) (reverse desks.items) ≡ clocks.items) }
    ensures seeds { IfOk result (λ desks.
        map (λ d. d.dice.seed) (reverse desks.items) ≡ seeds.items) }
{
    let mut desks = Vec::with_capacity(alloc, seeds.len())?;
    while let Some(seed) = seeds.pop() {
        let Some(clock) = clocks.pop() else {
            unreachable!()
        };
        let Some(book) = books.pop() else {
            unreachable!()
        };
        let pass = gate.split(home, 1)?;
        desks.push_reserved(Desk {
            pass,
            clock,
            dice: Dice::new(seed),
            book,
            tally: Tally::none(),
            worn: None,
        });
    }
    Ok(desks)
}

/// Takes every worker's pass into the purger's, and keeps their clocks and books, the last worker
/// of the list first. What they have counted is added up, and of the tickets that were found worn
/// the last is kept.
pub(crate) fn meet_desks<C: Drop, B: Drop, R: Replay + Drop>(
    gate: &Gate<R>,
    home: Pass,
    mut desks: Vec<Desk<C, B>>,
    clocks: &mut Vec<C>,
    books: &mut Vec<B>,
    tally: &mut Tally,
    worn: &mut Option<u64>,
) -> Pass
    requires home { IsSingle gate.now home }
    requires desks { All (λ d. IsSingle gate.now d.pass) desks.items }
    requires none { (clocks.old.items ≡ []) × (books.old.items ≡ []) }
    requires uncounted { CountedAll {C = C} {B = B} [] tally.old }
    requires room { (vec_len clocks.old + vec_len desks ≤ vec_capacity clocks.old)
        × (vec_len books.old + vec_len desks ≤ vec_capacity books.old) }
    ensures gate { result.gate ≡ gate.now }
    ensures share { result.share ≡ length desks.items + 1 }
    ensures numbers { result.numbers
        ≡ home.number ∷ map (λ d. d.pass.number) (reverse desks.items) }
    ensures once { OnceEach result.numbers }
    ensures home { IsMetInto result home }
    ensures desks { All (λ d. IsMetInto result d.pass) desks.items }
    ensures clocks { clocks.new.items ≡ map (λ d. d.clock) (reverse desks.items) }
    ensures books { books.new.items ≡ map (λ d. d.book) (reverse desks.items) }
    ensures tally { CountedAll desks.items tally.new }
    ensures worn { worn.new ≡ latest worn.old (map (λ d. d.worn) (reverse desks.items)) }
{
    let mut all = home;
    while let Some(desk) = desks.pop() {
        let Desk {
            pass,
            clock,
            dice: _,
            book,
            tally: counted,
            worn: found,
        } = desk;
        all = gate.meet(all, pass);
        clocks.push_reserved(clock);
        books.push_reserved(book);
        *tally = tally.and(counted);
        *worn = later(*worn, found);
    }
    all
}
