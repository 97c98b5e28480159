// start_of: the start cell, with which the data of a cursor or colour write begins.
ghost use Rattle.std.specs.Prelude.{◌≡◌, ◌<◌, length, get_or};

pub fn start_of(bytes: &[u8]) -> usize
    requires { 0 < length bytes.now }
    ensures { (result ≡ get_or bytes.now 0 0) × (result < 256) }
{
    usize::from(bytes[0])
}
