//! What the commands of munged share: the files that they read, how the program ends, and the line
//! that says so on the error stream.
#![tactic(auto)]

mod ending;
mod file;
mod key_file;
mod line;
mod maps;
mod seed_file;
#[cfg(test)]
mod tests;

pub use ending::{Ending, end};
pub use file::read_file;
pub use key_file::read_key;
pub use line::{Line, Number, put, write_line};
pub use maps::{check_maps, read_maps};
pub use seed_file::{read_seed, read_seeds};
