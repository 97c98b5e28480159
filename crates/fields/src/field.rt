// Fields of a lent file, put and got by where their bits stand. Leaves for other crates: the bits must lie in
// the file.
#![tactic(auto, unfolding(pieces::specs::Piece::put, pieces::specs::Piece::put_piece, pieces::specs::Piece::get, pieces::specs::Piece::get_piece, pieces::specs::Piece::width))]

ghost use Rattle.std.specs.Prelude.{◌≡◌, ◌≤◌, List, ◌∷◌, length};
ghost use Rattle.pieces.specs.Piece.{Piece, piece, width, get, put};
ghost use Rattle.fields.specs.Lying.{Lies};
ghost use Rattle.fields.specs.Shapes.{bits_of, split_of, three_of};

use pieces::{get_piece, put_piece};

// What each shape of a field can do, told by the pieces that it has.
pub trait Field: Copy {
    // its runs of bits, the lowest first
    ghost pieces: { Self → List Piece };

    // The number goes into the bits; what does not fit them is left out.
    fn put(self, file: &mut [u8], value: u32)
        requires { Lies (length file.old) (pieces self) }
        ensures { file.new ≡ put file.old (pieces self) value };

    // The number that the bits hold.
    fn get(self, file: &[u8]) -> u32
        requires { Lies (length file.now) (pieces self) }
        ensures { result ≡ get file.now (pieces self) };
}

// Bits of one place: the place, the lowest bit's position, and how many.
#[derive(Clone, Copy, Debug, PartialEq, Eq)]
pub struct Bits(pub usize, pub u32, pub u32);

// A whole low byte, and the bits above it: the two places, and position and width in the second.
#[derive(Clone, Copy, Debug, PartialEq, Eq)]
pub struct Split(pub usize, pub usize, pub u32, pub u32);

// Three whole bytes: their places, the lowest byte's first.
#[derive(Clone, Copy, Debug, PartialEq, Eq)]
pub struct Three(pub usize, pub usize, pub usize);

impl Field for Bits {
    ghost pieces = { bits_of };

    fn put(self, file: &mut [u8], value: u32) {
        let Bits(place, position, width) = self;
        file[place] = put_piece(file[place], position, width, value);
    }

    fn get(self, file: &[u8]) -> u32 {
        let Bits(place, position, width) = self;
        get_piece(file[place], position, width)
    }
}

// A whole low byte at a place, and the bits of a field above it.
fn put_above<F: Field>(file: &mut [u8], low: usize, high: F, value: u32)
    requires { Lies (length file.old) (piece low 0 8 ∷ F.pieces high) }
    ensures { file.new ≡ put file.old (piece low 0 8 ∷ F.pieces high) value }
{
    Bits(low, 0, 8).put(file, value);
    high.put(file, value >> 8);
}

fn get_above<F: Field>(file: &[u8], low: usize, high: F) -> u32
    requires lying { Lies (length file.now) (piece low 0 8 ∷ F.pieces high) }
    requires narrow { width (F.pieces high) ≤ 16 }
    ensures { result ≡ get file.now (piece low 0 8 ∷ F.pieces high) }
{
    let below = Bits(low, 0, 8).get(file);
    let above = high.get(file);
    (above << 8) + below
}

impl Field for Split {
    ghost pieces = { split_of };

    fn put(self, file: &mut [u8], value: u32) {
        let Split(low, high, position, width) = self;
        put_above(file, low, Bits(high, position, width), value);
    }

    fn get(self, file: &[u8]) -> u32 {
        let Split(low, high, position, width) = self;
        get_above(file, low, Bits(high, position, width))
    }
}

impl Field for Three {
    ghost pieces = { three_of };

    fn put(self, file: &mut [u8], value: u32) {
        let Three(low, middle, high) = self;
        put_above(file, low, Split(middle, high, 0, 8), value);
    }

    fn get(self, file: &[u8]) -> u32 {
        let Three(low, middle, high) = self;
        get_above(file, low, Split(middle, high, 0, 8))
    }
}
