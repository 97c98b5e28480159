// The window on the monitor: where the picture begins (first_clock, first_line), and how its pixels are
// scaled (pixel_ratio).
ghost use Rattle.std.specs.Prelude.{◌≡◌, ◌<◌, ◌≤◌, T, pos};
ghost use Rattle.scaler.specs.Numbers.{middle_clock, adwhs_of, centred_line, fal_of, xinc_of};
ghost use Rattle.scaler.specs.Limits.{most_pixels, most_lines, offset_holds};

use crate::standard::by_standard;

// XINC of a picture that is not scaled, and the number that is written for it.
const WHOLE: u32 = 4096;

// The encoder clock in the middle of a line.
pub fn middle_clock(standard: u8) -> u16
    ensures { result ≡ middle_clock standard }
{
    by_standard(standard, 966, 986)
}

// ADWHS.
#[tactic(auto, using(scaler::proofs::Windows::adwhs_is))]
pub fn first_clock(standard: u8, outpix: u16) -> u16
    requires { outpix ≤ most_pixels standard }
    ensures { pos result ≡ adwhs_of standard outpix }
{
    middle_clock(standard) - outpix
}

// The first line of a picture that is not moved. The half is rounded down, also below 0.
pub fn centred_line(standard: u8, outlin: u16) -> i64
    ensures { result ≡ centred_line standard outlin }
{
    let top: i64 = by_standard(standard, 19, 23);
    let full: i64 = by_standard(standard, 240, 287);
    top + ((full - (outlin as i64)) >> 1)
}

// FAL.
pub fn first_line(standard: u8, outlin: u16, offset: i8) -> u16
    requires { (outlin ≤ most_lines standard) × T (offset_holds offset) }
    ensures { pos result ≡ fal_of standard outlin offset }
{
    let line = centred_line(standard, outlin) + (offset as i64);
    line as u16
}

// XINC.
#[tactic(auto, unfolding(scaler::specs::Numbers::xinc_of, scaler::specs::Numbers::written_step, scaler::specs::Rounding::round_up))]
pub fn pixel_ratio(outpix: u16, inpix: u16) -> u16
    requires { (0 < inpix) × (outpix ≤ inpix) }
    ensures { result ≡ xinc_of outpix inpix }
{
    let pixels = inpix as u32;
    let step = (WHOLE * (outpix as u32) + (pixels - 1)) / pixels;
    if step == WHOLE { 0 } else { step as u16 }
}
