//! From a line's words to its command.
use either::Either;
use ring_plan::RingPlan;
use script::{
    Addition, AnyOrder, Command, Fault, FormulaCommand, FormulaWords, Operation, PlainCommand,
    PlainOrder, Words,
};
use term::{Lex, Reverse, Weight};

const COMMENT: u8 = b'#';

/// The command of a line; none for an empty line and for a comment.
pub(crate) fn parse(line: &str) -> Result<Option<Command<'_>>, Fault> {
    let bytes = line.as_bytes();
    if let [COMMENT, ..] = bytes {
        return Ok(None);
    }
    let mut words = Words::new(bytes);
    let Some(name) = words.next() else {
        return Ok(None);
    };
    if let Some(command) = plain_command(name, &mut words)? {
        words.end()?;
        return Ok(Some(Command::Plain(command)));
    }
    match name {
        b"show" => Ok(Some(Command::Formula(FormulaWords::Show(words)))),
        b"add" => Ok(Some(Command::Formula(FormulaWords::Add(words)))),
        _ => Err(Fault::UnknownCommand),
    }
}

/// The command of this name with the words in front that it takes, or none where no command without formulas has the name.
fn plain_command(name: &[u8], words: &mut Words<'_>) -> Result<Option<PlainCommand>, Fault> {
    if let Some(operation) = operation(name, words)? {
        return Ok(Some(PlainCommand::Operation(operation)));
    }
    let command = match name {
        b"ring" => PlainCommand::Ring(ring_plan(words)?),
        b"order" => PlainCommand::Order(any_order(words)?),
        b"compare" => PlainCommand::Compare(words.monomial()?, words.monomial()?),
        _ => return Ok(None),
    };
    Ok(Some(command))
}

/// The command with formulas that these words write.
pub(crate) fn formulas(words: FormulaWords<'_>) -> Result<FormulaCommand, Fault> {
    match words {
        FormulaWords::Show(words) => shown(words),
        FormulaWords::Add(words) => added(words),
    }
}

/// The formula to show.
fn shown(mut words: Words<'_>) -> Result<FormulaCommand, Fault> {
    let list = words.formula()?;
    words.end()?;
    Ok(FormulaCommand::Show(list))
}

/// The sum to work out.
fn added(mut words: Words<'_>) -> Result<FormulaCommand, Fault> {
    let addition = addition(&mut words)?;
    words.end()?;
    Ok(FormulaCommand::Add(addition))
}

/// The ring's operation of this name with its codes, or none where no operation has the name.
fn operation(name: &[u8], words: &mut Words<'_>) -> Result<Option<Operation>, Fault> {
    let operation = match name {
        b"one" => Operation::One,
        b"sum" => Operation::Sum(words.code()?, words.code()?),
        b"negative" => Operation::Negative(words.code()?),
        b"product" => Operation::Product(words.code()?, words.code()?),
        b"annihilator" => Operation::Annihilator(words.code()?),
        b"residue" => Operation::Residue(words.code()?, words.code()?),
        b"quotient" => Operation::Quotient(words.code()?, words.code()?),
        b"gcd" => Operation::Gcd(words.code()?, words.code()?),
        _ => return Ok(None),
    };
    Ok(Some(operation))
}

/// The ring that the words after `ring` ask for.
fn ring_plan(words: &mut Words<'_>) -> Result<RingPlan, Fault> {
    match words.required()? {
        b"residue" => Ok(RingPlan::Residue(words.number()?)),
        b"pair" => pair_plan(words),
        _ => Err(Fault::UnknownWord),
    }
}

/// The pair that two or three numbers ask for.
fn pair_plan(words: &mut Words<'_>) -> Result<RingPlan, Fault> {
    let left = words.number()?;
    let right = words.number()?;
    match words.optional_number()? {
        Some(last) => Ok(RingPlan::Triple(left, right, last)),
        None => Ok(RingPlan::Pair(left, right)),
    }
}

/// The order that the words after `order` ask for.
fn any_order(words: &mut Words<'_>) -> Result<AnyOrder, Fault> {
    match words.required()? {
        b"weight" => {
            let weights = words.monomial()?;
            let below = plain_order(words.required()?)?;
            Ok(Either::Right(Weight::new(weights, below)))
        }
        name => Ok(Either::Left(plain_order(name)?)),
    }
}

/// The order of this name that a weight can stand over.
fn plain_order(name: &[u8]) -> Result<PlainOrder, Fault> {
    match name {
        b"lex" => Ok(Either::Left(Lex)),
        b"reverse" => Ok(Either::Right(Reverse)),
        _ => Err(Fault::UnknownWord),
    }
}

/// The sum that the words after `add` ask for.
fn addition(words: &mut Words<'_>) -> Result<Addition, Fault> {
    let formula = words.formula()?;
    words.separator()?;
    let factor = words.monomial()?;
    words.separator()?;
    let line = words.formula()?;
    Ok(Addition {
        formula,
        factor,
        line,
    })
}
