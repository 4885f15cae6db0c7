//! The gate: many threads admit and purge on one replay state, one after the other in the order of
//! the tickets that they draw, and so make one history.
//!
//! A caller, which the test `caller` runs:
//!
//! ```
//! let Entry { gate, mut pass } = Gate::new(rt.alloc(), PlainReplay::new(rt.alloc()), 2)?;
//! let mut other = gate.split(&mut pass, 1)?;
//! let mac = MacBytes::of(b"\x01\x02\x03");
//! let pair = Pair { expiry: 1300, mac };
//! let first = gate.admit(&rt, &mut pass, &pair, 1000)?;
//! let second = gate.admit(&rt, &mut other, &pair, 1000)?;
//! assert_eq!(rt; (first.verdict, first.place), (Verdict::Accepted, 0));
//! assert_eq!(rt; (second.verdict, second.place), (Verdict::Replayed, 1));
//! let all = gate.meet(pass, other);
//! let closed = gate.close(all);
//! assert_eq!(rt; (closed.length, closed.state.kept()), (2, 1));
//! Ok(())
//! ```
#![tactic(auto)]

mod admit;
mod close;
mod gate;
mod meet;
mod pass;
mod plays;
mod purge;
mod refused;
mod turn;
mod view;

pub use close::Closed;
pub use gate::{Entry, Gate};
pub use pass::Pass;
pub use refused::{Admitted, GateRefused, Worn};

#[cfg(test)]
mod tests;
