//! Looking through bytes.
ghost use Rattle.std.specs.Prelude.{◌≡◌, ◌≤◌, length};
ghost use Rattle.script.specs.Words.{length_before};

/// How many bytes stand before the first that is `stop`, or all of them.
pub(crate) fn length_before(bytes: &[u8], stop: u8) -> usize
    ensures value { result ≡ length_before stop bytes.now }
    ensures bound { result ≤ length bytes.now }
{
    bytes
        .iter()
        .position(|byte| *byte == stop)
        .unwrap_or(bytes.len())
}
