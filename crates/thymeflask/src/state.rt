// The state in lent bytes, and bus writes and reads on it.
ghost use Rattle.std.specs.Prelude.{◌≡◌};
ghost use Rattle.bus.specs.States.{fresh_answer, bus_write, bus_read};
ghost use Rattle.states.specs.Lent.{state_in, status_set, fifo_set, lent_reply, lent_after, lent_read};
ghost use Rattle.thymeflask.specs.Results.{read_result};

use reply::reply_of;
use states::lent::{fresh, read, set_fifo, set_status, write};

// Where the byte begins in the result of a read: above the reply.
const BYTE: u32 = 256;

// A fresh state, all zero but for the chip byte: the reply.
#[unsafe(no_mangle)]
pub extern "C" fn thymeflask_fresh(state: &mut [u8], chip: u8) -> u32
    ensures { (result ≡ lent_reply state.old (fresh_answer chip))
        × (state.new ≡ lent_after state.old (fresh_answer chip)) }
{
    u32::from(reply_of(fresh(state, chip)))
}

// The status byte set: the reply, 0 but for a wrong length. C has two names, for this and for the fifo byte.
#[unsafe(no_mangle)]
pub extern "C" fn thymeflask_set_status(state: &mut [u8], status: u8) -> u32
    ensures { (result ≡ lent_reply state.old (status_set (state_in state.old) status))
        × (state.new
        ≡ lent_after state.old (status_set (state_in state.old) status)) }
{
    u32::from(reply_of(set_status(state, status)))
}

// The fifo byte set: the reply, 0 but for a wrong length.
#[unsafe(no_mangle)]
pub extern "C" fn thymeflask_set_fifo(state: &mut [u8], fifo: u8) -> u32
    ensures { (result ≡ lent_reply state.old (fifo_set (state_in state.old) fifo))
        × (state.new
        ≡ lent_after state.old (fifo_set (state_in state.old) fifo)) }
{
    u32::from(reply_of(set_fifo(state, fifo)))
}

// A bus write, done where the state lies: the reply.
#[unsafe(no_mangle)]
pub extern "C" fn thymeflask_write(state: &mut [u8], transaction: &[u8]) -> u32
    ensures { (result ≡ lent_reply state.old
        (bus_write (state_in state.old) transaction.now))
        × (state.new ≡ lent_after state.old
        (bus_write (state_in state.old) transaction.now)) }
{
    u32::from(reply_of(write(state, transaction)))
}

// A bus read: the reply, and the byte above it. The state is lent for writing, since on the chip a read can
// clear bits; it stays.
#[unsafe(no_mangle)]
#[tactic(auto, unfolding(crate::specs::Results::read_result))]
pub extern "C" fn thymeflask_read(state: &mut [u8], transaction: &[u8]) -> u32
    ensures { (result ≡ read_result (lent_read state.old
        (bus_read (state_in state.old) transaction.now)))
        × (state.new ≡ state.old) }
{
    match read(state, transaction) {
        Ok(byte) => BYTE * u32::from(byte),
        Err(refusal) => u32::from(u8::from(refusal)),
    }
}
