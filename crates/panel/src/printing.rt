//! What is printed of a line of the script.
ghost use Rattle.std.specs.Prelude.{◌≡◌, OnOk};
ghost use Rattle.std.specs.Io.KnownBytes.{Appends};
ghost use Rattle.panel.specs.Printed.{printed, printed_formula};

use crate::failure::Failure;
use answer::{Answer, FormulaAnswer};
use std::io;
use std::io::Write;

/// Prints what came of the line of a number: an answer or a failure, a line each, and else nothing.
pub(crate) fn print<W: Write>(
    output: &mut W,
    number: u64,
    outcome: Result<Option<Answer>, Failure>,
) -> io::Result<()>
    ensures { OnOk result (Appends (W.contents output.old) (W.contents output.new) (printed number outcome)) }
{
    match outcome {
        Ok(Some(answer)) => writeln!(output, "{answer}"),
        Ok(None) => Ok(()),
        Err(Failure::Refused(refusal)) => writeln!(output, "refused {refusal}"),
        Err(Failure::Fault(fault)) => writeln!(output, "error: line {number}: {fault}"),
    }
}

/// Prints a formula that is answered, on a line.
pub(crate) fn print_formula<W: Write>(output: &mut W, answer: &FormulaAnswer) -> io::Result<()>
    ensures { OnOk result (Appends (W.contents output.old) (W.contents output.new) (printed_formula answer.now)) }
{
    writeln!(output, "{answer}")
}
