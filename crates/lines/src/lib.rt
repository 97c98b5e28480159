// put_line: the line that a record of a session prints, put into a lent buffer. A leaf for
// other crates: the line must lie in the buffer.
#![tactic(auto)]

ghost use Rattle.std.specs.Prelude.{◌≡◌, ◌<◌, ◌≤◌, length};
ghost use Rattle.std.proofs.lemmas.List.Edits.{sets};
ghost use Rattle.lines.specs.Lines.{glyph, line, added};

const SPACE: u8 = 0x20;

const LINE_END: u8 = 0x0A;

// The character of 0, with those of 1 to 9 behind it.
const ZERO: u8 = 0x30;

// The character of a digit: 0 to 9, then a to f. By hand: format strings take 212 instructions a line, where a whole
// record of a session takes 63.
fn character(digit: u8) -> u8
    requires { digit < 16 }
    ensures { result ≡ glyph digit }
{
    let characters = b"0123456789abcdef";
    characters[digit as usize]
}

// A line of kind and reply, and of the byte that is shown behind them, if one is, at the front of what is
// lent. The answer is its length.
// Kind and reply are numbers: a broken record has any byte as its kind, and a line any reply below 10.
#[tactic(auto, using(crate::proofs::Digits::line_long))]
pub fn put_line(out: &mut [u8], kind: u8, reply: u8, shown: Option<u8>) -> usize
    requires { (length (line kind reply (added shown)) ≤ length out.old) × (reply < 10) }
    ensures { (out.new ≡ sets out.old 0 (line kind reply (added shown)))
        × (result ≡ length (line kind reply (added shown))) }
{
    let (high, low) = (character(kind / 16), character(kind % 16));
    let digit = ZERO + reply;
    match shown {
        None => {
            out[..5].copy_from_slice(&[high, low, SPACE, digit, LINE_END]);
            5
        }
        Some(byte) => {
            let (first, second) = (character(byte / 16), character(byte % 16));
            out[..8].copy_from_slice(&[high, low, SPACE, digit, SPACE, first, second, LINE_END]);
            8
        }
    }
}
