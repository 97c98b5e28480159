// The request in the 18 bytes of a record of a session: request_of reads it, and put_request puts it there.
#![tactic(auto)]

ghost use Rattle.std.specs.Prelude.{◌≡◌, length};
ghost use Rattle.requests.specs.Requests.{request_of};

use scaler::request::{PixelClocks, Request};

pub mod put;

// A function and no From, as put_request and request_bytes are: neither type is this crate's own, and scaler, which has
// Request, lies below the meaning of the bytes.
pub fn request_of(body: &[u8]) -> Request
    requires { length body.now ≡ 18 }
    ensures { result ≡ request_of body.now }
{
    let word = u16::from_le_bytes;
    Request {
        standard: body[0],
        inpix: word([body[1], body[2]]),
        inlin: word([body[3], body[4]]),
        inppl: word([body[5], body[6]]),
        outpix: word([body[7], body[8]]),
        outlin: word([body[9], body[10]]),
        offset: body[17].cast_signed(),
        yskip: word([body[11], body[12]]),
        xofs: PixelClocks(word([body[13], body[14]])),
        yofso: word([body[15], body[16]]),
    }
}
