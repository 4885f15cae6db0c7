//! Times what munged is made of, and prints a line for each measurement.
//!
//! The words on the command line say what is timed; without words nothing is, and nothing is
//! printed.
#![tactic(auto)]

mod aes;
mod caller;
mod cost;
mod credential;
mod exercise;
mod gate;
mod groups;
mod lane;
mod pace;
mod parts;
mod rate;
mod replay;
mod sample;
mod session;

use std::process::ExitCode;
use std::{env, io};

fn main(rt: HostRuntime) -> io::Result<ExitCode> {
    for word in env::args(&rt)?.skip(1) {
        match word.as_str() {
            "aes" => aes::run(&rt)?,
            "credential" => credential::run(&rt, rt.alloc())?,
            "exercise" => exercise::run(&rt, rt.alloc())?,
            "gate" => gate::run(&rt, rt.alloc())?,
            "groups" => groups::run(&rt, rt.alloc())?,
            "replay" => replay::run(&rt, rt.alloc())?,
            "session" => session::run(&rt, rt.alloc())?,
            other => {
                eprintln!(rt; "munge_bench: {other}: nothing of that name is timed")?;
                return Ok(ExitCode::from(2));
            }
        }
    }
    Ok(ExitCode::SUCCESS)
}

#[cfg(test)]
mod tests;
