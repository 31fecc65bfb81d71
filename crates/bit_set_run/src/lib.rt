//! Commands over a table of sixteen sets, and the program that reads them from lines.
#![tactic(auto)]

pub mod laws;
mod lines;
mod output;
mod pairs;
mod running;
mod starting;
mod stepping;
mod streams;
mod table;
mod two_sets;
mod walking;

pub use bit_set_commands::{Command, Numbers, Reply, SetName};
pub use lines::run_lines;
pub use running::{RunFault, run};
pub use starting::{Exit, start};
pub use streams::LinesFault;
pub use table::Table;
