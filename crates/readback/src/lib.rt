// read_picture: the request that a lent register file reads as.
#![tactic(auto)]

mod numbers;

ghost use Rattle.std.specs.Prelude.{◌≡◌};
ghost use Rattle.readback.specs.Reading.{read_answer};
ghost use Rattle.readback.specs.Told.{told_read};

use chip::file::FILE_LENGTH;
use numbers::Numbers;
use reply::Refusal;
use scaler::request::{PixelClocks, Request};

pub fn read_picture(file: &[u8]) -> Result<Request, Refusal>
    ensures { told_read result ≡ read_answer file.now }
{
    let Some(file) = file.as_array::<FILE_LENGTH>() else {
        return Err(Refusal::WrongLength);
    };
    Numbers::in_file(file).picture().ok_or(Refusal::NoPicture)
}

// An answer by its numbers: the reply, and the request, all 0 beside a refusal.
#[tactic(auto, unfolding(crate::specs::Reading::not_found, crate::specs::Reading::no_request))]
pub fn numbers_of(answer: Result<Request, Refusal>) -> (u8, Request)
    ensures { told_read answer ≡ record { reply = result.0; request = result.1 } }
{
    match answer {
        Ok(request) => (0, request),
        Err(refusal) => (
            u8::from(refusal),
            Request {
                standard: 0,
                inpix: 0,
                inlin: 0,
                inppl: 0,
                outpix: 0,
                outlin: 0,
                offset: 0,
                yskip: 0,
                xofs: PixelClocks(0),
                yofso: 0,
            },
        ),
    }
}
