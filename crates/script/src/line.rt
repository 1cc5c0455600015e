//! The lines of the input, read in chunks.
ghost use Rattle.std.specs.Prelude.{◌≤◌, vec_len};

use crate::fault::Fault;
use crate::scan::length_before;
use std::alloc::{AllocError, Global};
use std::io;
use std::io::{BufRead, ErrorKind};
use std::ops::ControlFlow;
use std::str::from_utf8;

/// The longest line that is read, in bytes and without its newline.
const MAX_LINE: usize = 1_000_000;

const NEWLINE: u8 = b'\n';

/// A line of the input without its newline. Of a longer one than `MAX_LINE` one byte more than that is held.
#[derive(Drop)]
pub struct Line {
    bytes: Vec<u8>,
    ghost within: { vec_len bytes ≤ 1000001 },
}

impl Line {
    ghost use Rattle.std.specs.Prelude.{◌≡◌, [], ◌++◌, false, IfSome, IfOk, OnOk, MatchResult, nat_lt, length, Some};
    ghost use Rattle.script.specs.Faults.{NoText};
    ghost use Rattle.script.specs.Lines.{PartRead, after_line, held_part, is_too_long, line_of};

    /// The empty line, which is not too long.
    pub fn new(heap: Global) -> Line
        ensures bytes { result.bytes.items ≡ [] }
        ensures is_short { is_too_long result.bytes.items ≡ false }
    {
        Line {
            bytes: Vec::new(heap),
        }
    }

    /// Takes the input's next line in the place of this one, and says whether there was one.
    pub fn read<R: BufRead>(&mut self, input: &mut R) -> io::Result<bool>
        ensures line { OnOk result (IfSome (R.Read.remaining input.old) (λ xs. self.new.bytes.items ≡ held_part (line_of xs))) }
        ensures rest { OnOk result (IfSome (R.Read.remaining input.old) (λ xs. R.Read.remaining input.new ≡ Some (after_line xs))) }
        ensures found { IfOk result (λ found. IfSome (R.Read.remaining input.old) (λ xs. found ≡ nat_lt 0 (length xs))) }
    {
        self.bytes.clear();
        // A count of turns, since every loop is proved to end; `read_until` would hold a line of any length.
        for _ in 0..u64::MAX {
            if let ControlFlow::Break(is_ended) = self.read_part(input)? {
                return Ok(is_ended || !self.bytes.is_empty());
            }
        }
        // After so many parts without an end it fails, as the library's readers do.
        Err(io::Error::from(ErrorKind::TimedOut))
    }

    /// The line as text; a fault exactly where it is too long, or else where its bytes are no UTF-8.
    pub fn text(&self) -> Result<&str, Fault>
        ensures text { MatchResult result (λ text. text.now ≡ self.now.bytes.items) (λ fault. NoText fault (is_too_long self.now.bytes.items) self.now.bytes.items) }
        ensures short { IfOk result (λ text. is_too_long text.now ≡ false) }
    {
        if self.bytes.len() > MAX_LINE {
            return Err(Fault::LineTooLong);
        }
        from_utf8(self.bytes.as_slice()).map_err(|_| Fault::NotUtf8)
    }

    /// Adds what the input holds, up to a newline, and takes it off the input.
    /// It breaks where the line ends: with true at a newline, and with false where the input has ended.
    fn read_part<R: BufRead>(&mut self, input: &mut R) -> io::Result<ControlFlow<bool>>
        ensures { IfOk result (λ flow. PartRead flow (R.Read.remaining input.old) (R.Read.remaining input.new) self.old.bytes.items self.new.bytes.items) }
    {
        let held = match input.fill_buf() {
            Ok(held) => held,
            Err(error) if error.kind() == ErrorKind::Interrupted => {
                return Ok(ControlFlow::Continue(()));
            }
            Err(error) => return Err(error),
        };
        if held.is_empty() {
            return Ok(ControlFlow::Break(false));
        }
        let length = length_before(held, NEWLINE);
        self.add(&held[..length])?;
        if length == held.len() {
            input.consume(length);
            return Ok(ControlFlow::Continue(()));
        }
        input.consume(length + 1);
        Ok(ControlFlow::Break(true))
    }

    /// Adds bytes to the line, as many as are held.
    fn add(&mut self, bytes: &[u8]) -> Result<(), AllocError>
        ensures { OnOk result (self.new.bytes.items ≡ held_part (self.old.bytes.items ++ bytes.now)) }
    {
        let room = MAX_LINE + 1 - self.bytes.len();
        let kept = bytes.len().min(room);
        self.bytes.extend_from_slice(&bytes[..kept])
    }
}
