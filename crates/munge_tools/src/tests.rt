//! Runs of the tools over the outside in memory.

mod fixture;
mod munge;
mod printing;
mod remunge;
mod telling;
mod unmunge;
