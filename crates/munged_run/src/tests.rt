//! Runs of the program over the outside in memory.

mod beside;
mod check;
mod ciphers;
mod credential;
mod exercise;
mod failures;
mod faults;
mod fixture;
mod purging;
mod requests;
mod sealing;
mod serve;
mod serving;
mod sockets;
mod stop;
mod tools;
mod turns;
mod words;
