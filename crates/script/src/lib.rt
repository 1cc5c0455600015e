//! Scripts of commands: their lines, the words of a line, what a word writes, and the commands.
#![tactic(auto)]

mod command;
mod decimal;
mod fault;
mod hexadecimal;
mod line;
mod listing;
mod operation;
mod scan;
#[cfg(test)]
mod tests;
mod words;

pub use command::{Command, FormulaCommand, FormulaWords, PlainCommand};
pub use fault::Fault;
pub use line::Line;
pub use listing::Listing;
pub use operation::{Addition, AnyOrder, Operation, PlainOrder};
pub use words::Words;
