// check: whether a picture is accepted, and the numbers that it needs in the chip's fields. It has three steps,
// limits_reply, scale and numbers.
#![tactic(auto)]

ghost use Rattle.std.specs.Prelude.{◌≡◌};
ghost use Rattle.reply.specs.Reply.{done};
ghost use Rattle.scaler.specs.Limits.{request_reply};
ghost use Rattle.scaler.specs.Answer.{fields_of, checked, told_check};

use limits::refusal::limits_reply;
use limits::scale::scale;
use limits::scaled::Scaled;
use reply::Refusal;
use scaler::request::{EncoderClocks, Fields, PixelClocks, Request};
use steps::clock::pixel_step;
use steps::standard::by_standard;
use steps::window::{first_clock, first_line, pixel_ratio};

// The numbers of an accepted request.
pub fn numbers(scaled: &Scaled) -> Fields
    requires { request_reply scaled.now.request ≡ done }
    ensures { result ≡ fields_of scaled.now.request }
{
    let q = scaled.request;
    let v = scaled.vertical;
    let adwhs = first_clock(q.standard, q.outpix);
    let fal = first_line(q.standard, q.outlin, q.offset);
    let pcl = pixel_step(q.standard, (q.inppl as u64) * (scaled.lines() as u64));
    let xinc = pixel_ratio(q.outpix, q.inpix);
    let xofs = q.xofs;
    let yiwgte = (v.top - (q.yskip as u64)) / 2;
    Fields {
        fise: by_standard(q.standard, 1, 0),
        adwhs: EncoderClocks(adwhs),
        adwhe: EncoderClocks(adwhs + 2 * q.outpix),
        fal,
        lal: fal + q.outlin,
        pcl,
        xofs,
        xpix: q.inpix / 2,
        yofso: q.yofso,
        yofse: q.yofso + v.late,
        ypix: q.inlin,
        hlen: PixelClocks(q.inppl - 1),
        xinc,
        yinc: v.yinc as u16,
        yiwgto: v.yiwgto as u16,
        yiwgte: yiwgte as u16,
        yskip: q.yskip,
    }
}

// The fields, or the lowest number that applies. Compiled into each caller, so that the fields need no memory.
#[inline(always)]
pub fn check(request: Request) -> Result<Fields, Refusal>
    ensures { told_check result ≡ checked request }
{
    limits_reply(request)?;
    let answer = scale(request);
    answer.reply?;
    Ok(numbers(&answer.scaled))
}

// An answer by its numbers: the reply, and the fields' numbers, all 0 beside a refusal.
#[tactic(auto, unfolding(scaler::specs::Answer::refusal, scaler::specs::Answer::no_fields))]
pub fn numbers_of(answer: Result<Fields, Refusal>) -> (u8, Fields)
    ensures { told_check answer ≡ record { reply = result.0; fields = result.1 } }
{
    match answer {
        Ok(fields) => (0, fields),
        Err(refusal) => (
            u8::from(refusal),
            Fields {
                fise: 0,
                adwhs: EncoderClocks(0),
                adwhe: EncoderClocks(0),
                fal: 0,
                lal: 0,
                pcl: 0,
                xofs: PixelClocks(0),
                xpix: 0,
                yofso: 0,
                yofse: 0,
                ypix: 0,
                hlen: PixelClocks(0),
                xinc: 0,
                yinc: 0,
                yiwgto: 0,
                yiwgte: 0,
                yskip: 0,
            },
        ),
    }
}
