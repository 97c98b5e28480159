// The first step: a test for 4 and one for 5, the refusals' numbers in document 01.
ghost use Rattle.std.specs.Prelude.{◌≡◌};
ghost use Rattle.scaler.specs.Limits.{wrong_source, pixels_hold, lines_hold, offset_holds, output_holds};
ghost use Rattle.reply.specs.Refusals.{reply_of};
ghost use Rattle.limits.specs.Replies.{limits_reply};

use reply::Refusal;
use scaler::request::Request;
use steps::standard::{FIFTY, by_standard};

const LEAST_INPIX: u16 = 2;

const MOST_INPIX: u16 = 800;

const MOST_INLIN: u16 = 600;

// 4: the standard, and the source picture.
#[tactic(auto, unfolding(scaler::specs::Limits::wrong_source))]
fn wrong_source(q: Request) -> bool
    ensures { result ≡ wrong_source q }
{
    let pixels = (q.inpix % 2 != 0) | ((q.inpix < LEAST_INPIX) | (MOST_INPIX < q.inpix));
    let lines = (q.inlin < 1) | (MOST_INLIN < q.inlin);
    let end = (q.xofs.0 as u32) + (q.inpix as u32);
    (FIFTY < q.standard) | (pixels | (lines | ((q.inppl as u32) < end)))
}

// 5: the limits of the output, in pixels, in lines and in the offset.
#[tactic(auto, unfolding(scaler::specs::Limits::pixels_hold))]
fn pixels_hold(standard: u8, inpix: u16, outpix: u16) -> bool
    ensures { result ≡ pixels_hold standard inpix outpix }
{
    let most: u16 = by_standard(standard, 710, 702);
    let twice = 2 * (outpix as u32);
    ((1 <= outpix) & (outpix <= most)) & ((outpix <= inpix) & ((inpix as u32) <= twice))
}

#[tactic(auto, unfolding(scaler::specs::Limits::lines_hold))]
fn lines_hold(standard: u8, inlin: u16, outlin: u16) -> bool
    ensures { result ≡ lines_hold standard inlin outlin }
{
    let most: u16 = by_standard(standard, 240, 287);
    let lines = (inlin as u32) + 2;
    ((1 <= outlin) & (outlin <= most)) & (lines <= 4 * (outlin as u32))
}

#[tactic(auto, unfolding(scaler::specs::Limits::offset_holds))]
fn offset_holds(offset: i8) -> bool
    ensures { result ≡ offset_holds offset }
{
    (-8 <= offset) & (offset <= 8)
}

#[tactic(auto, unfolding(scaler::specs::Limits::output_holds))]
fn output_holds(q: Request) -> bool
    ensures { result ≡ output_holds q }
{
    let pixels = pixels_hold(q.standard, q.inpix, q.outpix);
    let lines = lines_hold(q.standard, q.inlin, q.outlin);
    let offset = offset_holds(q.offset);
    pixels & (lines & offset)
}

// The answer by these two, which need no number of the scaler.
#[tactic(auto, unfolding(crate::specs::Replies::limits_reply, scaler::specs::Limits::request_tests, reply::specs::Reply::lowest))]
pub fn limits_reply(q: Request) -> Result<(), Refusal>
    ensures { reply_of result ≡ limits_reply q }
{
    if wrong_source(q) {
        return Err(Refusal::WrongRequest);
    }
    if !output_holds(q) {
        return Err(Refusal::OutputLimit);
    }
    Ok(())
}
