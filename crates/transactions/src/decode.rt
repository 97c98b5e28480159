// write_reply: what is refused of a write, before anything is done.
ghost use Rattle.std.specs.Prelude.{◌≡◌, ◌<◌};
ghost use Rattle.reply.specs.Refusals.{reply_of};
ghost use Rattle.transactions.specs.Writes.{passes, cells_pass, registers_pass, write_reply};

use crate::start::start_of;
use reply::Refusal;

// The slave address for a write.
pub const WRITE_ADDRESS: u8 = 0x88;

// A run of registers ends before this subaddress.
pub const REGISTERS_END: usize = 0xFE;

// The subaddresses of the cursor map and of the colour table. Bytes and no enum: every other byte is a
// register's subaddress.
pub const CURSOR: u8 = 0xFE;

pub const COLOURS: u8 = 0xFF;

// Each has so many cells, of so many bytes.
const CELLS: usize = 256;

pub const CURSOR_CELL: usize = 1;

pub const COLOUR_CELL: usize = 3;

// Whether a run passes its end: of registers, of cells, and by the subaddress.
#[tactic(auto, unfolding(crate::specs::Writes::registers_pass))]
fn registers_pass(subaddress: u8, bytes: &[u8]) -> bool
    ensures { result ≡ registers_pass subaddress bytes.now }
{
    REGISTERS_END < usize::from(subaddress) + bytes.len()
}

#[tactic(auto, unfolding(crate::specs::Writes::cells_pass, crate::specs::Writes::from_start))]
fn cells_pass(width: usize, bytes: &[u8]) -> bool
    requires { 0 < width }
    ensures { result ≡ cells_pass width bytes.now }
{
    match bytes {
        [] => false,
        [_, cells @ ..] => {
            (cells.len() % width != 0) | (CELLS < start_of(bytes) + cells.len() / width)
        }
    }
}

#[tactic(auto, unfolding(crate::specs::Writes::passes))]
fn run_passes(subaddress: u8, bytes: &[u8]) -> bool
    ensures { result ≡ passes subaddress bytes.now }
{
    match subaddress {
        CURSOR => cells_pass(CURSOR_CELL, bytes),
        COLOURS => cells_pass(COLOUR_CELL, bytes),
        _ => registers_pass(subaddress, bytes),
    }
}

// The reply to a write.
#[tactic(auto, unfolding(crate::specs::Writes::write_reply, crate::specs::Writes::write_tests, reply::specs::Reply::lowest))]
pub fn write_reply(transaction: &[u8]) -> Result<(), Refusal>
    ensures { reply_of result ≡ write_reply transaction.now }
{
    let [address, subaddress, bytes @ ..] = transaction else {
        return Err(Refusal::WrongLength);
    };
    if *address != WRITE_ADDRESS {
        return Err(Refusal::WrongAddress);
    }
    if run_passes(*subaddress, bytes) {
        return Err(Refusal::PassesEnd);
    }
    Ok(())
}
