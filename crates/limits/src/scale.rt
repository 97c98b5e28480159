// scale: the second step: what the numbers of a request come from, and the answer that they decide.
ghost use Rattle.std.specs.Prelude.{◌≡◌};
ghost use Rattle.reply.specs.Reply.{done};
ghost use Rattle.limits.specs.Replies.{limits_reply, scaled_for};
ghost use Rattle.limits.specs.Told.{told_scale, OfRequest};

use crate::scaled::Scaled;
use reply::Refusal;
use scaler::request::Request;

// The request with its vertical part, L, and the reply. A struct and no Result: beside a refusal there are values too.
#[derive(Clone, Copy, Debug, PartialEq, Eq)]
pub struct Answer {
    pub scaled: Scaled,
    pub lines: u32,
    pub reply: Result<(), Refusal>,
}

// Compiled into its caller: a call, and the answer through memory, take 100 instructions more.
#[inline(always)]
#[tactic(auto, unfolding(crate::specs::Replies::scaled_for))]
pub fn scale(q: Request) -> Answer
    requires { limits_reply q ≡ done }
    ensures told { told_scale result ≡ scaled_for q }
    ensures of { OfRequest q result }
{
    let scaled = Scaled::new(q);
    let lines = scaled.lines();
    let reply = scaled.scale_reply(lines);
    Answer {
        scaled,
        lines,
        reply,
    }
}
