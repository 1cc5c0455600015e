//! The words of a line, which one or more spaces separate.
ghost use Rattle.std.specs.Prelude.{◌≡◌, OnOk};
ghost use Rattle.std.specs.Option.{option_map, ok_or};
ghost use Rattle.std.specs.Result.{result_map_both as mapped_result};
ghost use Rattle.script.specs.declared.fault.Fault.TheVariants.{MissingWord};
ghost use Rattle.script.specs.Formulas.{after_formula, after_part, first_listed, formula_in, is_byte, monomials_in, part_word, slash_word};
ghost use Rattle.script.specs.Listed.{listed};
ghost use Rattle.script.specs.Words.{after_spaces, after_word, end_of_words, number_of_optional, number_of_word, packed_of_word, word};

use crate::decimal::decimal;
use crate::fault::Fault;
use crate::hexadecimal::packed;
use crate::listing::Listing;
use crate::scan::length_before;
use ring::Code;
use term::Monomial;

const SPACE: u8 = b' ';

/// Stands between the parts of a line.
const SLASH: u8 = b'/';

/// Writes the empty formula.
const ZERO: u8 = b'0';

/// What is left to read of a line.
#[derive(Clone, Copy)]
pub struct Words<'a> {
    rest: &'a [u8],
}

impl<'a> Words<'a> {
    /// All the words of a line.
    pub fn new(line: &'a [u8]) -> Words<'a>
        ensures { result.rest.now ≡ line.now }
    {
        Words { rest: line }
    }

    /// The next word, if there is one.
    pub fn next(&mut self) -> Option<&'a [u8]>
        ensures word { option_map (λ x. x.now) result ≡ word self.old.rest.now }
        ensures rest { self.new.rest.now ≡ after_word self.old.rest.now }
    {
        let start = after_spaces(self.rest);
        let (word, rest) = start.split_at(length_before(start, SPACE));
        self.rest = rest;
        (!word.is_empty()).then_some(word)
    }

    /// The next word, which must be there.
    pub fn required(&mut self) -> Result<&'a [u8], Fault>
        ensures word { mapped_result (λ x. x.now) (λ fault. fault) result ≡ ok_or (word self.old.rest.now) MissingWord }
        ensures rest { self.new.rest.now ≡ after_word self.old.rest.now }
    {
        self.next().ok_or(Fault::MissingWord)
    }

    /// The next word as a decimal number.
    pub fn number(&mut self) -> Result<u32, Fault>
        ensures number { result ≡ number_of_word 4294967295 (word self.old.rest.now) }
        ensures rest { self.new.rest.now ≡ after_word self.old.rest.now }
    {
        decimal(self.required()?, u32::MAX)
    }

    /// The next word as a decimal number, if there is a next word.
    pub fn optional_number(&mut self) -> Result<Option<u32>, Fault>
        ensures number { result ≡ number_of_optional 4294967295 (word self.old.rest.now) }
        ensures rest { self.new.rest.now ≡ after_word self.old.rest.now }
    {
        self.next().map(|word| decimal(word, u32::MAX)).transpose()
    }

    /// The next word as a code.
    pub fn code(&mut self) -> Result<Code, Fault>
        ensures code { result ≡ number_of_word 65535 (word self.old.rest.now) }
        ensures rest { self.new.rest.now ≡ after_word self.old.rest.now }
    {
        let number = decimal(self.required()?, Code::MAX as u32)?;
        Ok(number as Code)
    }

    /// The next word as a packed monomial.
    pub fn monomial(&mut self) -> Result<Monomial, Fault>
        ensures monomial { result ≡ packed_of_word (word self.old.rest.now) }
        ensures rest { self.new.rest.now ≡ after_word self.old.rest.now }
    {
        packed(self.required()?)
    }

    /// The monomials of a formula, which goes on to the word `/` or the end of the line; the word `0` is the empty one.
    pub fn formula(&mut self) -> Result<Listing, Fault>
        ensures formula { mapped_result listed (λ fault. fault) result ≡ first_listed (formula_in self.old.rest.now) }
        ensures rest { OnOk result (self.new.rest.now ≡ after_formula self.old.rest.now) }
    {
        let first = self.ahead().ok_or(Fault::MissingWord)?;
        if is_byte(first, ZERO) {
            let _ = self.next();
            return Ok(Listing::new());
        }
        self.monomials()
    }

    /// The words up to `/` or the end of the line as packed monomials.
    fn monomials(&mut self) -> Result<Listing, Fault>
        ensures monomials { mapped_result listed (λ fault. fault) result ≡ first_listed (monomials_in self.old.rest.now) }
        ensures rest { OnOk result (self.new.rest.now ≡ after_part self.old.rest.now) }
    {
        let mut list = Listing::new();
        while let Some(word) = self.ahead() {
            list.push(packed(word)?);
            let _ = self.next();
        }
        Ok(list)
    }

    /// The next word, which is left where it stands; none where it is `/`.
    fn ahead(&self) -> Option<&'a [u8]>
        ensures { option_map (λ x. x.now) result ≡ part_word self.now.rest.now }
    {
        let mut words = Words { rest: self.rest };
        words.next().filter(|word| !is_byte(word, SLASH))
    }

    /// The word `/`, which stands between the parts of a line.
    pub fn separator(&mut self) -> Result<(), Fault>
        ensures separator { result ≡ slash_word (word self.old.rest.now) }
        ensures rest { self.new.rest.now ≡ after_word self.old.rest.now }
    {
        if is_byte(self.required()?, SLASH) {
            Ok(())
        } else {
            Err(Fault::ExtraWord)
        }
    }

    /// That no word is left.
    pub fn end(&mut self) -> Result<(), Fault>
        ensures end { result ≡ end_of_words (word self.old.rest.now) }
        ensures rest { self.new.rest.now ≡ after_word self.old.rest.now }
    {
        match self.next() {
            Some(_) => Err(Fault::ExtraWord),
            None => Ok(()),
        }
    }
}

/// The bytes after the spaces at the front.
fn after_spaces(bytes: &[u8]) -> &[u8]
    ensures { result.now ≡ after_spaces bytes.now }
{
    let mut rest = bytes;
    while let [SPACE, after @ ..] = rest {
        rest = after;
    }
    rest
}

/// Whether a word is this one byte.
fn is_byte(word: &[u8], byte: u8) -> bool
    ensures { result ≡ is_byte byte word.now }
{
    word == [byte].as_slice()
}
