// vertical_part: what the vertical scaler needs, all of it from one division of N by D.
ghost use Rattle.std.specs.Prelude.{◌≡◌, cond, ◌*◌, ◌<◌, leb};
ghost use Rattle.scaler.specs.Numbers.{num_of, den_of};
ghost use Rattle.steps.specs.Parts.{vertical_of};

#[derive(Clone, Copy, Debug, PartialEq, Eq)]
pub struct Vertical {
    pub yinc: u64,
    pub yiwgto: u64,
    // What YSKIP is taken from for YIWGTE.
    pub top: u64,
    // What YOFSE has more than YOFSO.
    pub late: u16,
}

// The scaler's unit, and what YSKIP adds to.
const UNIT: u64 = 4096;

const FULL: u64 = 4095;

// Lines of the source that are not shown.
const MARGIN: u64 = 2;

const HALF_UNIT: u64 = 2048;

// N.
#[tactic(auto, unfolding(scaler::specs::Numbers::num_of))]
fn step_num(outlin: u16, yskip: u16) -> u64
    ensures { result ≡ num_of outlin yskip }
{
    (outlin as u64) * (FULL + (yskip as u64)) * UNIT
}

// D.
#[tactic(auto, unfolding(scaler::specs::Numbers::den_of))]
fn step_den(inlin: u16) -> u64
    ensures { result ≡ den_of inlin }
{
    ((inlin as u64) + MARGIN) * FULL
}

// 1 where what a division by `den` leaves is half of it or more.
fn half_up(rest: u64, den: u64) -> u64
    requires { rest < den }
    ensures { result ≡ cond (leb den (2 * rest)) 1 0 }
{
    u64::from(den - rest <= rest)
}

pub fn vertical_part(outlin: u16, inlin: u16, yskip: u16) -> Vertical
    ensures { result ≡ vertical_of (num_of outlin yskip) (den_of inlin) yskip }
{
    let num = step_num(outlin, yskip);
    let den = step_den(inlin);
    let whole = num / den;
    let rest = num % den;
    let yinc = whole + half_up(rest, den);
    let yiwgto = HALF_UNIT + whole / 2;
    if (yskip as u64) <= whole {
        Vertical {
            yinc,
            yiwgto,
            top: whole,
            late: 0,
        }
    } else {
        Vertical {
            yinc,
            yiwgto,
            top: 3 * whole + 3 * rest / den,
            late: 1,
        }
    }
}
