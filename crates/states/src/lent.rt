// The operations on a state that is lent as bytes. None copies the state: each part is written where it lies.
#![tactic(auto, using(crate::proofs::Parts::status_anew, crate::proofs::Parts::fifo_anew), unfolding(crate::specs::Lent::state_in, crate::specs::Lent::lent_reply, crate::specs::Lent::lent_after, crate::specs::Lent::lent_read, bus::specs::States::fresh_answer, bus::specs::States::bus_read))]

ghost use Rattle.std.specs.Prelude.{◌≡◌, ◌≢◌, length, MatchResult};
ghost use Rattle.reply.specs.Refusals.{reply_of};
ghost use Rattle.bus.specs.States.{fresh_answer, bus_write, bus_read};
ghost use Rattle.states.specs.Lent.{state_length, state_in, lent_reply, lent_after, lent_read, told_got, status_set, fifo_set};

use bus::arrays::write_arrays;
use bus::state::known_chip;
use reply::Refusal;
use transactions::read::byte_read;

// The length of a lent state, and where its parts begin.
const STATE_LENGTH: usize = 1283;

const COLOURS_AT: usize = 256;

const CURSOR_AT: usize = 1024;

const STATUS_AT: usize = 1280;

const CHIP_AT: usize = 1281;

const FIFO_AT: usize = 1282;

// Bytes of another length are no state: they are refused, and stay. A test and no array of 1,283: the parts
// are places in either.
fn check_length(state: &[u8]) -> Result<(), Refusal>
    ensures { MatchResult result (λ _. length state.now ≡ state_length)
        (λ refusal. (refusal ≡ Refusal.WrongLength) × (length state.now ≢ state_length)) }
{
    if state.len() != STATE_LENGTH {
        return Err(Refusal::WrongLength);
    }
    Ok(())
}

// A fresh state of a chip; another chip byte than the two is refused, with a state that is all zero. Cleared where
// it lies, since a State that is made and put there is copied.
pub fn fresh(state: &mut [u8], chip: u8) -> Result<(), Refusal>
    ensures reply { reply_of result ≡ lent_reply state.old (fresh_answer chip) }
    ensures after { state.new ≡ lent_after state.old (fresh_answer chip) }
{
    check_length(state)?;
    state.fill(0);
    if !known_chip(chip) {
        return Err(Refusal::WrongRequest);
    }
    state[CHIP_AT] = chip;
    Ok(())
}

// This and set_fifo are two, as README and C have them: one with the place as a parameter would say no less.
pub fn set_status(state: &mut [u8], byte: u8) -> Result<(), Refusal>
    ensures reply { reply_of result ≡ lent_reply state.old (status_set (state_in state.old) byte) }
    ensures after { state.new ≡ lent_after state.old (status_set (state_in state.old) byte) }
{
    check_length(state)?;
    state[STATUS_AT] = byte;
    Ok(())
}

pub fn set_fifo(state: &mut [u8], byte: u8) -> Result<(), Refusal>
    ensures reply { reply_of result ≡ lent_reply state.old (fifo_set (state_in state.old) byte) }
    ensures after { state.new ≡ lent_after state.old (fifo_set (state_in state.old) byte) }
{
    check_length(state)?;
    state[FIFO_AT] = byte;
    Ok(())
}

// A bus write: the three arrays of the state are lent to it.
pub fn write(state: &mut [u8], transaction: &[u8]) -> Result<(), Refusal>
    ensures reply { reply_of result ≡ lent_reply state.old
        (bus_write (state_in state.old) transaction.now) }
    ensures after { state.new ≡ lent_after state.old
        (bus_write (state_in state.old) transaction.now) }
{
    check_length(state)?;
    let (file, behind_file) = state.split_at_mut(COLOURS_AT);
    let (colours, behind_colours) = behind_file.split_at_mut(CURSOR_AT - COLOURS_AT);
    let (cursor, _) = behind_colours.split_at_mut(STATUS_AT - CURSOR_AT);
    write_arrays(file, colours, cursor, transaction)
}

// A bus read: one of the three readable bytes. The state stays.
pub fn read(state: &mut [u8], transaction: &[u8]) -> Result<u8, Refusal>
    ensures byte { told_got result ≡ lent_read state.old
        (bus_read (state_in state.old) transaction.now) }
    ensures after { state.new ≡ state.old }
{
    check_length(state)?;
    let (status, chip, fifo) = (state[STATUS_AT], state[CHIP_AT], state[FIFO_AT]);
    byte_read(transaction, status, chip, fifo)
}
