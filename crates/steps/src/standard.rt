// by_standard: what differs between 60 Hz and 50 Hz. A standard is a byte, since a request may come with any,
// and what asks of it before the request is accepted answers for each but 0 as for 50 Hz.
ghost use Rattle.std.specs.Prelude.{◌≡◌};
ghost use Rattle.scaler.specs.Numbers.{by};

// The two standards.
pub const SIXTY: u8 = 0;

pub const FIFTY: u8 = 1;

pub fn by_standard<T: Copy>(standard: u8, sixty: T, fifty: T) -> T
    ensures { result ≡ by standard sixty fifty }
{
    if standard == SIXTY { sixty } else { fifty }
}
