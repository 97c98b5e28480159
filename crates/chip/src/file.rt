// The register file's length, and the caption bytes in it.
ghost use Rattle.std.specs.Prelude.{◌≡◌};
ghost use Rattle.chip.specs.File.{caption};

// A register file has so many bytes.
pub const FILE_LENGTH: usize = 256;

const FIRST_CAPTION: usize = 0x67;

const LAST_CAPTION: usize = 0x6A;

// Whether a place holds a caption byte, which no list of writes touches.
#[tactic(auto, unfolding(crate::specs::File::caption))]
pub fn is_caption(place: usize) -> bool
    ensures { result ≡ caption place }
{
    (FIRST_CAPTION..=LAST_CAPTION).contains(&place)
}
