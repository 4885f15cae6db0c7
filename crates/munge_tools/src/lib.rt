//! What the client programs do: munge asks the daemon to seal what it is given, unmunge asks it to
//! open a credential and prints what that says, and remunge has many credentials made and counts.
#![tactic(auto)]

mod beginning;
mod ending;
mod exchange;
mod fitting;
mod input;
pub mod laws;
mod line;
mod munge;
mod munge_words;
mod output;
mod printing;
mod remunge;
mod remunge_words;
mod replies;
mod reply;
mod rounds;
mod telling;
#[cfg(test)]
mod tests;
mod totals;
mod unmunge;
mod unmunge_words;
mod words;

pub use beginning::begin;
pub use ending::{Ending, end};
pub use munge::munge_run;
pub use printing::printed;
pub use remunge::remunge_run;
pub use telling::About;
pub use unmunge::unmunge_run;
