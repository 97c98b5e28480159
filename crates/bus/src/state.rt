// State: the file, the colour table, the cursor map and the three readable bytes.
ghost use Rattle.std.specs.Prelude.{◌≡◌};
ghost use Rattle.bus.specs.Answers.{told_answer, told_read, told_state};
ghost use Rattle.bus.specs.States.{known_chip, zero_state, fresh_answer, with_status, with_fifo};
ghost use Rattle.bus.specs.States.{bus_write, bus_read};

use crate::arrays::write_arrays;
use reply::Refusal;
use transactions::read::byte_read;

#[derive(Clone, Copy, Debug, PartialEq, Eq)]
pub struct State {
    pub file: [u8; 256],
    // 256 cells of red, green and blue.
    pub colours: [u8; 768],
    pub cursor: [u8; 256],
    // The readable bytes, at 00h, 1Ch and 80h.
    pub status: u8,
    pub chip: u8,
    pub fifo: u8,
}

// The next state, and the reply. A struct and no Result: beside a refusal there is a state too, in
// `fresh_answer` another one.
#[derive(Clone, Copy, Debug, PartialEq, Eq)]
pub struct Answer {
    pub state: State,
    pub reply: Result<(), Refusal>,
}

// The next state, and the byte that was read.
#[derive(Clone, Copy, Debug, PartialEq, Eq)]
pub struct ReadAnswer {
    pub state: State,
    pub byte: Result<u8, Refusal>,
}

// The chip bytes of the SAA7102 and the SAA7103. Bytes and no enum: any byte may be asked for,
// and may stand in a lent state (`StatesCross`).
const SAA7102: u8 = 0x02;

const SAA7103: u8 = 0x03;

pub fn known_chip(chip: u8) -> bool
    ensures { result ≡ known_chip chip }
{
    matches!(chip, SAA7102 | SAA7103)
}

#[tactic(auto, unfolding(crate::specs::States::zero_state))]
fn zeros(chip: u8) -> State
    ensures { result ≡ zero_state chip }
{
    State {
        file: [0; 256],
        colours: [0; 768],
        cursor: [0; 256],
        status: 0,
        chip,
        fifo: 0,
    }
}

impl State {
    // A fresh state of a chip; another chip byte than the two is refused, with a state that is all zero.
    #[tactic(auto, unfolding(crate::specs::States::fresh_answer))]
    pub fn fresh(chip: u8) -> Answer
        ensures { told_answer result ≡ fresh_answer chip }
    {
        if known_chip(chip) {
            return Answer {
                state: zeros(chip),
                reply: Ok(()),
            };
        }
        Answer {
            state: zeros(0),
            reply: Err(Refusal::WrongRequest),
        }
    }

    // This and set_fifo are two, as README and the definitions have them.
    pub fn set_status(mut self, byte: u8) -> Self
        ensures { result ≡ with_status self byte }
    {
        self.status = byte;
        self
    }

    pub fn set_fifo(mut self, byte: u8) -> Self
        ensures { result ≡ with_fifo self byte }
    {
        self.fifo = byte;
        self
    }

    // A bus write, done on the state where it lies; a refusal leaves the state as it was.
    pub fn apply(&mut self, transaction: &[u8]) -> Result<(), Refusal>
        ensures { told_state self.new result ≡ bus_write self.old transaction.now }
    {
        write_arrays(
            &mut self.file,
            &mut self.colours,
            &mut self.cursor,
            transaction,
        )
    }

    // A bus write: the transaction goes in with the state, and the next state comes back.
    pub fn write(mut self, transaction: &[u8]) -> Answer
        ensures { told_answer result ≡ bus_write self transaction.now }
    {
        let reply = self.apply(transaction);
        Answer { state: self, reply }
    }

    // A bus read: one of the three readable bytes, and the state as it was.
    #[tactic(auto, unfolding(crate::specs::States::bus_read))]
    pub fn read(self, transaction: &[u8]) -> ReadAnswer
        ensures { told_read result ≡ bus_read self transaction.now }
    {
        let byte = byte_read(transaction, self.status, self.chip, self.fifo);
        ReadAnswer { state: self, byte }
    }
}

impl ReadAnswer {
    // The reply, and the byte, 0 beside a refusal.
    pub fn numbers(&self) -> (u8, u8)
        ensures { told_read self.now ≡ record { state = self.now.state; reply = result.0; byte = result.1 } }
    {
        match self.byte {
            Ok(byte) => (0, byte),
            Err(refusal) => (u8::from(refusal), 0),
        }
    }
}
