//! Tests of the public calls.

mod doors;
mod links;
mod memory;
mod real;
mod streams;
mod wires;
