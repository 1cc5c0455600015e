//! The commands of a script.
use crate::{Addition, AnyOrder, Listing, Operation, Words};
use ring_plan::RingPlan;
use term::Monomial;

/// A command without formulas, with its words read.
#[derive(Clone, Copy)]
pub enum PlainCommand {
    Ring(RingPlan),
    Order(AnyOrder),
    Operation(Operation),
    /// How the first term stands to the second.
    Compare(Monomial, Monomial),
}

/// A command with formulas, with its words read.
#[derive(Clone, Copy)]
pub enum FormulaCommand {
    Show(Listing),
    Add(Addition),
}

/// The words of a command with formulas, of which the name is read.
#[derive(Clone, Copy)]
pub enum FormulaWords<'a> {
    Show(Words<'a>),
    Add(Words<'a>),
}

/// A command. Formulas take much room, which every command would have and move, so those of one that has some are still words.
#[derive(Clone, Copy)]
pub enum Command<'a> {
    Plain(PlainCommand),
    Formula(FormulaWords<'a>),
}
