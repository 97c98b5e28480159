// write_picture: a request into a lent file.
ghost use Rattle.std.specs.Prelude.{◌≡◌};
ghost use Rattle.reply.specs.Refusals.{reply_of};
ghost use Rattle.picture.specs.Writing.{write_reply, file_after};

use checks::check;
use chip::file::FILE_LENGTH;
use reply::Refusal;
use scaler::request::Request;
use table::put_values;

// The file has the request's numbers in its fields, or is as it was.
pub fn write_picture(file: &mut [u8], request: Request) -> Result<(), Refusal>
    ensures { (reply_of result ≡ write_reply file.old request)
        × (file.new ≡ file_after file.old request) }
{
    let Some(file) = file.as_mut_array::<FILE_LENGTH>() else {
        return Err(Refusal::WrongLength);
    };
    let values: [u32; 17] = check(request)?.into();
    put_values(file, &values);
    Ok(())
}
