// get_piece and put_piece: some bits of one byte. Leaves for other crates: the bits must lie in the byte.
#![tactic(auto)]

ghost use Rattle.std.specs.Prelude.{◌≡◌, ◌+◌, ◌-◌, ◌^◌, ◌≤◌};
ghost use Rattle.pieces.specs.Piece.{bits_at, with_bits};

use bits::merge::merge_byte;

// So many ones, from bit 0 up.
fn ones(width: u32) -> u32
    requires { width ≤ 8 }
    ensures { result ≡ 2 ^ width - 1 }
{
    (1 << width) - 1
}

// The number in `width` bits of a byte, from bit `position` up.
#[tactic(auto, using(crate::proofs::Shifts::masked_bits_at))]
pub fn get_piece(byte: u8, position: u32, width: u32) -> u32
    requires { position + width ≤ 8 }
    ensures { result ≡ bits_at byte position width }
{
    (u32::from(byte) >> position) & ones(width)
}

// The byte with the low bits of a number there. Of each number the low byte is meant: `% 256` and a cast say so,
// where a conversion that may fail would have to be answered.
#[tactic(auto, using(crate::proofs::Shifts::merge_piece))]
pub fn put_piece(byte: u8, position: u32, width: u32, value: u32) -> u8
    requires { position + width ≤ 8 }
    ensures { result ≡ with_bits byte position width value }
{
    let mask = ones(width) << position;
    let moved = (value % 256) << position;
    merge_byte((mask % 256) as u8, byte, (moved % 256) as u8)
}
