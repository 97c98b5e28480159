// put_request: a request into the 18 bytes of a record of a session.
ghost use Rattle.std.specs.Prelude.{◌≡◌, length};
ghost use Rattle.requests.specs.Requests.{request_bytes};

use scaler::request::Request;

fn request_bytes(q: Request) -> [u8; 18]
    ensures { result ≡ request_bytes q }
{
    let inpix = q.inpix.to_le_bytes();
    let inlin = q.inlin.to_le_bytes();
    let inppl = q.inppl.to_le_bytes();
    let outpix = q.outpix.to_le_bytes();
    let outlin = q.outlin.to_le_bytes();
    let yskip = q.yskip.to_le_bytes();
    let xofs = q.xofs.0.to_le_bytes();
    let yofso = q.yofso.to_le_bytes();
    [
        q.standard,
        inpix[0],
        inpix[1],
        inlin[0],
        inlin[1],
        inppl[0],
        inppl[1],
        outpix[0],
        outpix[1],
        outlin[0],
        outlin[1],
        yskip[0],
        yskip[1],
        xofs[0],
        xofs[1],
        yofso[0],
        yofso[1],
        q.offset.cast_unsigned(),
    ]
}

// The bytes must be just as many as a request takes.
pub fn put_request(body: &mut [u8], q: Request)
    requires { length body.old ≡ 18 }
    ensures { body.new ≡ request_bytes q }
{
    body.copy_from_slice(&request_bytes(q));
}
