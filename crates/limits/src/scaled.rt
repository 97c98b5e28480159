// Scaled: a request with its vertical part, from which the tests of the second step and the numbers come.
ghost use Rattle.std.specs.Prelude.{◌≡◌, ◌<◌};
ghost use Rattle.reply.specs.Refusals.{reply_of};
ghost use Rattle.scaler.specs.Limits.{numbers_pass, weights_pass, lines_for, num_for, den_for};
ghost use Rattle.steps.specs.Parts.{vertical_for};
ghost use Rattle.limits.specs.Replies.{scale_reply};

use reply::Refusal;
use scaler::request::Request;
use steps::clock::{clock_passes, source_lines};
use steps::vertical::{Vertical, vertical_part};

// The largest number of ten bits, of eleven with 1 more, and of twelve.
const TEN_BITS: u16 = 1023;

const MOST_INPPL: u16 = 2048;

const TWELVE_BITS: u16 = 4095;

#[derive(Clone, Copy, Debug, PartialEq, Eq)]
pub struct Scaled {
    pub request: Request,
    pub vertical: Vertical,
    pub ghost vertical_is: { vertical ≡ vertical_for request },
}

impl Scaled {
    pub fn new(request: Request) -> Scaled
        ensures { result.request ≡ request }
    {
        Scaled {
            request,
            vertical: vertical_part(request.outlin, request.inlin, request.yskip),
        }
    }

    // L: the source's lines in a field. OutLin is asked for here and not held by the type: the tests answer for 0 too.
    pub fn lines(&self) -> u32
        requires { 0 < self.now.request.outlin }
        ensures { result ≡ lines_for self.now.request }
    {
        let q = self.request;
        source_lines(q.standard, q.inlin, q.outlin)
    }

    // 6: numbers that do not fit their fields. HLEN has eleven bits, so that InPpl is at most 2,048.
    #[tactic(auto, using(scaler::proofs::Steps::yofse_late), unfolding(scaler::specs::Limits::numbers_pass, scaler::specs::Numbers::yofse_of, steps::specs::Parts::vertical_of))]
    pub fn numbers_pass(&self) -> bool
        ensures { result ≡ numbers_pass self.now.request }
    {
        let q = self.request;
        let yofse = (q.yofso as u32) + (self.vertical.late as u32);
        let offsets = (TEN_BITS < q.xofs.0) | ((TEN_BITS < q.yofso) | ((TEN_BITS as u32) < yofse));
        let steps = (TWELVE_BITS < q.yskip) | ((TWELVE_BITS as u64) < self.vertical.yinc);
        offsets | ((MOST_INPPL < q.inppl) | steps)
    }

    // 8: weights below 0 or over 4,095.
    pub fn weights_pass(&self) -> bool
        ensures { let q = self.now.request in result ≡ weights_pass (num_for q) (den_for q) q.yskip }
    {
        let yskip = self.request.yskip as u64;
        let most = TWELVE_BITS as u64;
        if self.vertical.top < yskip {
            return true;
        }
        (most < self.vertical.yiwgto) | (most < (self.vertical.top - yskip) / 2)
    }

    // The answer by these and by the pixel clock, which takes L.
    #[tactic(auto, unfolding(crate::specs::Replies::scale_reply, scaler::specs::Limits::request_tests, reply::specs::Reply::lowest))]
    pub(crate) fn scale_reply(&self, lines: u32) -> Result<(), Refusal>
        requires { lines ≡ lines_for self.now.request }
        ensures { reply_of result ≡ scale_reply self.now.request }
    {
        if self.numbers_pass() {
            return Err(Refusal::TooLarge);
        }
        if clock_passes(self.request.standard, self.request.inppl, lines) {
            return Err(Refusal::TooFast);
        }
        if self.weights_pass() {
            return Err(Refusal::WrongWeight);
        }
        Ok(())
    }
}
