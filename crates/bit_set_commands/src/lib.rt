//! The commands of the program `bitset`: how a line is read as one, and how a reply is written. This crate has no
//! sets.
#![tactic(auto)]

mod commands;
mod cutting;
pub mod laws;
mod names;
mod numbers;
mod reading;
mod reply_texts;
mod verbs;

pub use commands::{Command, Reply};
pub use cutting::next_line;
pub use names::SetName;
pub use numbers::Numbers;
pub use reading::{BadLine, read_line};
pub use reply_texts::{append_reply, bad_text};
