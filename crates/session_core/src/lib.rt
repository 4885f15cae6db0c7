//! One session: requests are read from a stream, and each is answered on another. And one
//! connection: one request is read, answered on a gate that threads share, and the reply is written
//! back.
#![tactic(auto)]

mod answer;
mod decode;
mod encode;
mod end;
pub mod laws;
mod reached;
mod request;
mod rooms;
mod run;
mod serve;
mod served;
#[cfg(test)]
mod tests;
mod turn;

pub use end::{HowEnded, SessionEnd};
pub use rooms::Rooms;
pub use run::session;
pub use serve::{serve_in, serve_one};
pub use served::{ServeEnd, Served};
