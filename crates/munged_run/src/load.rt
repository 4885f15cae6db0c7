//! The jobs of a load: connections that bring a credential each, and their clocks.

mod clock;
mod conn;
mod jobs;

pub use clock::LoadClock;
pub use conn::LoadLink;
pub use jobs::jobs_of;
