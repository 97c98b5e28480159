// What is refused of a read, and the byte that an accepted one gives.
ghost use Rattle.std.specs.Prelude.{◌≡◌};
ghost use Rattle.reply.specs.Refusals.{reply_of, told};
ghost use Rattle.transactions.specs.Reads.{readable, read_reply, byte_of, byte_read};

use crate::decode::WRITE_ADDRESS;
use reply::Refusal;

// The slave address for a read.
const READ_ADDRESS: u8 = 0x89;

// The readable places. Bytes and no enum: a read may name any byte.
const STATUS: u8 = 0x00;

const CHIP: u8 = 0x1C;

const FIFO: u8 = 0x80;

fn is_readable(place: u8) -> bool
    ensures { result ≡ readable place }
{
    matches!(place, STATUS | CHIP | FIFO)
}

// The reply to a read.
#[tactic(auto, unfolding(crate::specs::Reads::read_reply, crate::specs::Reads::read_tests, reply::specs::Reply::lowest))]
pub fn read_reply(transaction: &[u8]) -> Result<(), Refusal>
    ensures { reply_of result ≡ read_reply transaction.now }
{
    let [address, place, reading] = transaction else {
        return Err(Refusal::WrongLength);
    };
    if (*address != WRITE_ADDRESS) | (*reading != READ_ADDRESS) {
        return Err(Refusal::WrongAddress);
    }
    if is_readable(*place) {
        return Ok(());
    }
    Err(Refusal::NotReadable)
}

// The byte at a readable place, of the three. Three bytes and no struct: they are a State's own fields, and its
// definition, `byte_of`, takes three.
#[tactic(auto, unfolding(crate::specs::Reads::byte_of))]
pub fn readable_byte(place: u8, status: u8, chip: u8, fifo: u8) -> u8
    ensures { result ≡ byte_of status chip fifo place }
{
    match place {
        STATUS => status,
        CHIP => chip,
        _ => fifo,
    }
}

// What a read gives of the three readable bytes.
#[tactic(auto, using(crate::proofs::Accepted::read_long))]
pub fn byte_read(transaction: &[u8], status: u8, chip: u8, fifo: u8) -> Result<u8, Refusal>
    ensures reply { reply_of result ≡ read_reply transaction.now }
    ensures byte { told (λ b. b) (λ _. 0) result ≡ byte_read status chip fifo transaction.now }
{
    read_reply(transaction)?;
    let place = transaction[1];
    Ok(readable_byte(place, status, chip, fifo))
}
