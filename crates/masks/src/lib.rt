// The bit map at one place.
#![tactic(auto)]

ghost use Rattle.std.specs.Prelude.{◌≡◌, get_or};
ghost use Rattle.chip.specs.Map.{masks};

use chip::map::mask_table;

// The mask of a place, its named bits.
pub fn mask_of(place: u8) -> u8
    ensures { result ≡ get_or masks place 0 }
{
    mask_table()[usize::from(place)]
}
