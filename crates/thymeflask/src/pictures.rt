// Pictures: requests and fields in lent bytes.
#![tactic(auto, using(reply::proofs::Refusals::not_done), unfolding(crate::specs::Pictures::check_reply, crate::specs::Pictures::check_after, crate::specs::Pictures::write_reply, crate::specs::Pictures::write_after, crate::specs::Pictures::read_reply, crate::specs::Pictures::read_after))]

ghost use Rattle.std.specs.Prelude.{◌≡◌};
ghost use Rattle.reply.specs.Refusals.{reply_of};
ghost use Rattle.thymeflask.specs.Pictures.{check_reply, check_after, write_reply, write_after};
ghost use Rattle.thymeflask.specs.Pictures.{read_reply, read_after};

use bodies::put::put_request;
use bodies::request_of;
use checks::check;
use picture::write::write_picture;
use readback::read_picture;
use reply::{Refusal, reply_of};
use words::put_words;

// The lengths of a lent request, and of lent fields.
const REQUEST_LENGTH: usize = 18;

const FIELDS_LENGTH: usize = 68;

// A request checked, and where it is accepted the fields' numbers lent back.
fn lent_check(request: &[u8], fields: &mut [u8]) -> Result<(), Refusal>
    ensures reply { reply_of result ≡ check_reply request.now fields.old }
    ensures left { fields.new ≡ check_after request.now fields.old }
{
    if request.len() != REQUEST_LENGTH {
        return Err(Refusal::WrongLength);
    }
    if fields.len() != FIELDS_LENGTH {
        return Err(Refusal::WrongLength);
    }
    let numbers = check(request_of(request))?;
    put_words(fields, &<[u32; 17]>::from(numbers));
    Ok(())
}

// A request written into a file.
fn lent_write(file: &mut [u8], request: &[u8]) -> Result<(), Refusal>
    ensures reply { reply_of result ≡ write_reply file.old request.now }
    ensures left { file.new ≡ write_after file.old request.now }
{
    if request.len() != REQUEST_LENGTH {
        return Err(Refusal::WrongLength);
    }
    write_picture(file, request_of(request))
}

// A file read back, and where it is a picture's the request lent back.
fn lent_read(file: &[u8], request: &mut [u8]) -> Result<(), Refusal>
    ensures reply { reply_of result ≡ read_reply file.now request.old }
    ensures left { request.new ≡ read_after file.now request.old }
{
    if request.len() != REQUEST_LENGTH {
        return Err(Refusal::WrongLength);
    }
    let wanted = read_picture(file)?;
    put_request(request, wanted);
    Ok(())
}

// A request checked: the reply, and beside 0 the fields' numbers.
#[unsafe(no_mangle)]
pub extern "C" fn thymeflask_check(request: &[u8], fields: &mut [u8]) -> u32
    ensures { (result ≡ check_reply request.now fields.old)
        × (fields.new ≡ check_after request.now fields.old) }
{
    u32::from(reply_of(lent_check(request, fields)))
}

// A request written into a file: the reply.
#[unsafe(no_mangle)]
pub extern "C" fn thymeflask_write_picture(file: &mut [u8], request: &[u8]) -> u32
    ensures { (result ≡ write_reply file.old request.now)
        × (file.new ≡ write_after file.old request.now) }
{
    u32::from(reply_of(lent_write(file, request)))
}

// A file read back: the reply, and beside 0 the request.
#[unsafe(no_mangle)]
pub extern "C" fn thymeflask_read_picture(file: &[u8], request: &mut [u8]) -> u32
    ensures { (result ≡ read_reply file.now request.old)
        × (request.new ≡ read_after file.now request.old) }
{
    u32::from(reply_of(lent_read(file, request)))
}
