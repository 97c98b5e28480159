// The pixel clock: the source's lines in a field, whether the clock passes its limit, and PCL.
ghost use Rattle.std.specs.Prelude.{◌≡◌, ◌*◌, ◌/◌, ◌^◌, ◌<◌, ◌≤◌};
ghost use Rattle.scaler.specs.Numbers.{lines_of, field_clocks};
ghost use Rattle.scaler.specs.Limits.{clock_passes};

use crate::standard::{SIXTY, by_standard};

// F: encoder clocks in a field, at 60 Hz and at 50 Hz.
const FIELD_60: u64 = 450450;

const FIELD_50: u64 = 540000;

// 2 ^ 21, the unit of PCL.
const SCALE: u64 = 2097152;

// L: the source's lines in a field, those included that are not shown.
#[tactic(auto, unfolding(scaler::specs::Numbers::lines_of))]
pub fn source_lines(standard: u8, inlin: u16, outlin: u16) -> u32
    requires { 0 < outlin }
    ensures { result ≡ lines_of standard inlin outlin }
{
    let lines = (inlin as u32) + 2;
    let twice = 2 * (outlin as u32);
    lines * by_standard(standard, 525, 625) / twice
}

// Whether a clock of so many pixels in a field is over 45 MHz.
#[tactic(auto, unfolding(scaler::specs::Limits::clock_passes))]
pub fn clock_passes(standard: u8, inppl: u16, lines: u32) -> bool
    ensures { result ≡ clock_passes standard inppl lines }
{
    let most = 5 * by_standard(standard, FIELD_60, FIELD_50);
    most < 3 * ((inppl as u64) * (lines as u64))
}

// PCL. Two divisions and no by_standard, so that each is by a constant, which the compiler does by multiplying.
pub fn pixel_step(standard: u8, clocks: u64) -> u32
    requires { 3 * clocks ≤ 5 * field_clocks standard }
    ensures { result ≡ clocks * 2 ^ 21 / field_clocks standard }
{
    let scaled = clocks * SCALE;
    if standard == SIXTY {
        let step = scaled / FIELD_60;
        step as u32
    } else {
        let step = scaled / FIELD_50;
        step as u32
    }
}
