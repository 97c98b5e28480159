// A bus write on the three arrays of a state, wherever they lie: in a State, or in bytes that C lends.
ghost use Rattle.std.specs.Prelude.{◌≡◌, length};
ghost use Rattle.bus.specs.Answers.{told_state};
ghost use Rattle.bus.specs.States.{with_arrays, bus_write};
ghost use Rattle.bus.specs.declared.state.State.{State};

use reply::Refusal;
use transactions::decode::{COLOUR_CELL, COLOURS, CURSOR, CURSOR_CELL, write_reply};
use writers::{write_cells, write_registers};

// The arrays become those that the write leaves in any state that has them; a refusal changes none.
#[tactic(auto, using(transactions::proofs::Accepted::accepted, transactions::proofs::Accepted::cursor_accepted, transactions::proofs::Accepted::colours_accepted, transactions::proofs::Accepted::registers_accepted, transactions::proofs::Starts::tail_part), unfolding(crate::specs::States::bus_write, crate::specs::States::stored))]
pub fn write_arrays(
    file: &mut [u8],
    colours: &mut [u8],
    cursor: &mut [u8],
    transaction: &[u8],
) -> Result<(), Refusal>
    requires file { length file.old ≡ 256 }
    requires colours { length colours.old ≡ 768 }
    requires cursor { length cursor.old ≡ 256 }
    ensures { (s : State) → told_state (with_arrays s file.new colours.new cursor.new) result
        ≡ bus_write (with_arrays s file.old colours.old cursor.old) transaction.now }
{
    write_reply(transaction)?;
    let subaddress = transaction[1];
    let bytes = &transaction[2..];
    match subaddress {
        CURSOR => write_cells(cursor, CURSOR_CELL, bytes),
        COLOURS => write_cells(colours, COLOUR_CELL, bytes),
        _ => write_registers(file, subaddress, bytes),
    }
    Ok(())
}
