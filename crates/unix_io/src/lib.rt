//! Sockets in the file system as the outside of munged: a hall that opens a door at each path, the
//! connections that its doors give, a ticker that ends with them, and clocks of the system.
//!
//! What they carry they do not tell, and a contract counts their faults alone. That the system's
//! sockets behave so is not proved. It is tested here, over real ones.
#![tactic(auto)]

mod clocks;
mod door;
mod hall;
mod link;
mod listening_socket;
mod read_ahead;
mod shared;
mod socket_file;
mod state;
#[cfg(test)]
mod tests;
mod ticker;
mod timed_stream;

pub use clocks::SystemClocks;
pub use door::UnixDoor;
pub use hall::UnixHall;
pub use link::UnixLink;
pub use ticker::SleepTicker;
