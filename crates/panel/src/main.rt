//! The program `panel`: it reads a script of commands, carries out each and prints what it did.
#![tactic(auto)]

mod failure;
mod parse;
mod printing;
mod session;

ghost use Rattle.std.specs.Prelude.{◌≡◌, IfOk, OnErr};

use answer::{Answer, FormulaAnswer};
use failure::Failure;
use parse::{formulas, parse};
use printing::{print, print_formula};
use script::{Command, Fault, FormulaWords, Line};
use session::Session;
use std::io;
use std::io::{BufReader, BufWriter, Write};

fn main(rt: HostRuntime) -> io::Result<()> {
    run(&rt)
}

/// Carries out the script that stands on the standard input.
fn run(rt: &HostRuntime) -> io::Result<()> {
    let mut input = BufReader::new(rt.alloc(), rt.stdin())?;
    let mut output = BufWriter::new(rt.alloc(), rt.stdout())?;
    let mut session = Session::new();
    let mut line = Line::new(rt.alloc());
    // The lines are counted, since a failure prints the number of its line.
    for number in 1..u64::MAX {
        if !line.read(&mut input)? {
            break;
        }
        let outcome = carry_out_line(&mut output, &mut session, &line)?;
        print(&mut output, number, outcome)?;
    }
    output.flush()
}

/// Carries out a line, and gives its answer; none for an empty line and for a comment, and for a formula, which is printed at once. A line that fails changes nothing, nor does one whose formula cannot be printed.
fn carry_out_line<W: Write>(
    output: &mut W,
    session: &mut Session,
    line: &Line,
) -> io::Result<Result<Option<Answer>, Failure>>
    ensures unchanged { IfOk result (λ outcome. OnErr outcome (session.new ≡ session.old)) }
    ensures unchanged_unprinted { OnErr result (session.new ≡ session.old) }
{
    match command_of(line) {
        Ok(Some(Command::Plain(command))) => Ok(
            session
                .carry_out(command)
                .map(Some)
                .map_err(Failure::Refused),
        ),
        Ok(Some(Command::Formula(words))) => answer_formula(output, session, words),
        Ok(None) => Ok(Ok(None)),
        Err(fault) => Ok(Err(Failure::Fault(fault))),
    }
}

/// The command of a line.
fn command_of(line: &Line) -> Result<Option<Command<'_>>, Fault> {
    parse(line.text()?)
}

/// Prints the formula that answers a command, or gives why it gets none. It stands alone, since formulas take room that no other line has use for.
#[inline(never)]
fn answer_formula<W: Write>(
    output: &mut W,
    session: &Session,
    words: FormulaWords<'_>,
) -> io::Result<Result<Option<Answer>, Failure>> {
    match formula_of(session, words) {
        Ok(answer) => print_formula(output, &answer).map(|()| Ok(None)),
        Err(failure) => Ok(Err(failure)),
    }
}

/// What a command answers whose formulas are still words.
fn formula_of(session: &Session, words: FormulaWords<'_>) -> Result<FormulaAnswer, Failure> {
    Ok(session.formula(&formulas(words)?)?)
}
