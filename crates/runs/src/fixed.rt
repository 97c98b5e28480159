// any_fixed: whether two files differ where no write reaches.
ghost use Rattle.std.specs.Prelude.{◌≡◌};
ghost use Rattle.runs.specs.Found.{stuck_at};

use bits::merge::merge_byte;
use changes::{Files, same_four};
use chip::file::FILE_LENGTH;
use chip::map::mask_table;

// The four caption bytes lie here.
const CAPTION: usize = 0x67;

// With no branch in the loop, many places are tested at once.
pub fn any_fixed(files: Files) -> bool
    ensures { result ≡ stuck_at files.entry.from.now files.entry.to.now 0 }
{
    let from = files.from;
    let to = files.to;
    if !same_four(from, to, CAPTION) {
        return true;
    }
    let table = mask_table();
    let mut fixed = false;
    for p in 0..FILE_LENGTH {
        fixed |= merge_byte(table[p], from[p], to[p]) != to[p];
    }
    fixed
}
