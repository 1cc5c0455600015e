//! Why a line of the script is no command.
ghost use Rattle.std.specs.Prelude.{◌≡◌, Some};
ghost use Rattle.script.specs.Faults.{text_of_fault};

use std::fmt;

/// Why a line is no command. Such a line changes nothing.
#[derive(Clone, Copy)]
pub enum Fault {
    LineTooLong,
    NotUtf8,
    UnknownCommand,
    UnknownWord,
    MissingWord,
    ExtraWord,
    NotANumber,
    NumberTooLarge,
    /// No packed monomial.
    NotPacked,
}

impl Fault {
    /// The reason in words, and not a derived text: what a derive writes promises nothing of it.
    fn reason(self) -> &'static str
        ensures { result.now ≡ text_of_fault self }
    {
        match self {
            Fault::LineTooLong => "line too long",
            Fault::NotUtf8 => "not UTF-8",
            Fault::UnknownCommand => "unknown command",
            Fault::UnknownWord => "unknown word",
            Fault::MissingWord => "missing word",
            Fault::ExtraWord => "extra word",
            Fault::NotANumber => "not a number",
            Fault::NumberTooLarge => "number too large",
            Fault::NotPacked => "not 16 hexadecimal digits",
        }
    }
}

impl fmt::Display for Fault {
    ghost output = { λ fault. Some (text_of_fault fault) };

    fn fmt<W: fmt::Write>(&self, f: &mut fmt::Formatter<W>) -> fmt::Result {
        f.write_str(self.reason())
    }
}
