// What the programs share whose output is compared: bytes in hex, parts of longer runs, and requests.
#![tactic(auto)]

pub mod examples;

ghost use Rattle.std.specs.Prelude.{◌≡◌, ◌≤◌, ◌<◌, ◌⊎◌, length, take, drop, Some};
ghost use Rattle.report.specs.Hex.{hex_text};

use std::fmt;

// Bytes as they are printed: before each a space, and each in two hex digits.
#[derive(Clone, Copy)]
pub struct Hex<'a>(pub &'a [u8]);

impl fmt::Display for Hex<'_> {
    ghost output = { λ hex. Some (hex_text hex.0.now) };

    fn fmt<W: fmt::Write>(&self, f: &mut fmt::Formatter<W>) -> fmt::Result {
        for &byte in self.0 {
            write!(f, " {byte:02x}")?;
        }
        Ok(())
    }
}

// The bytes of a longer run from a start up to an end; all of it where they do not lie in it, as
// the programs print what there is.
pub fn part(bytes: &[u8], start: usize, end: usize) -> &[u8]
    ensures inside { start ≤ end → end ≤ length bytes.now → result.now ≡ drop start (take end bytes.now) }
    ensures outside { (end < start) ⊎ (length bytes.now < end) → result.now ≡ bytes.now }
{
    bytes.get(start..end).unwrap_or(bytes)
}
