// do_record: a whole record done on the three arrays of a state, wherever they lie.
ghost use Rattle.std.specs.Prelude.{◌≡◌, false, ◌+◌, ◌*◌, ◌<◌, length};
ghost use Rattle.reply.specs.Refusals.{reply_of};
ghost use Rattle.transactions.specs.Writes.{cells_pass};
ghost use Rattle.writers.specs.Cells.{cells_run};
ghost use Rattle.records.specs.Kinds.{number_of};
ghost use Rattle.effects.specs.Parts.{Does};

use bits::merge::merge_byte;
use bodies::request_of;
use chip::map::mask_table;
use picture::write::write_picture;
use records::kind::Kind;
use records::record::Record;
use reply::Refusal;
use transactions::decode::{COLOUR_CELL, CURSOR_CELL, REGISTERS_END};
use writers::write_cells;

// One cell of a map, whose number is the first byte: it lies in the map, whatever the number is. The body's
// length is said again, so that the compiler knows how many bytes there are to store.
#[tactic(auto, using(crate::proofs::Effects::cell_fits))]
fn write_cell(map: &mut [u8], width: usize, body: &[u8])
    requires { (0 < width) × (length map.old ≡ 256 * width) × (length body.now ≡ width + 1) }
    ensures cell { map.new ≡ cells_run width map.old body.now }
    ensures fits { cells_pass width body.now ≡ false }
{
    write_cells(map, width, &body[..width + 1]);
}

// A whole record done on a state's arrays: these become those of its outcome, whatever the readable bytes are. Only
// a picture can be refused, and then they are as they were. Compiled into its caller, so that arrays of which nothing
// is read need not be written.
#[inline(always)]
#[tactic(auto, unfolding(records::specs::Records::body_length))]
pub fn do_record(
    file: &mut [u8; 256],
    colours: &mut [u8; 768],
    cursor: &mut [u8; 256],
    whole: Record,
) -> Result<(), Refusal>
    ensures { Does (number_of whole.entry.kind) whole.entry.body.now file.old colours.old cursor.old
        (reply_of result) file.new colours.new cursor.new }
{
    let body = whole.body;
    match whole.kind {
        Kind::Picture => return write_picture(file, request_of(body)),
        // One register takes its own mask; past the registers there is nothing to merge.
        Kind::Register => {
            let place = usize::from(body[0]);
            if place < REGISTERS_END {
                file[place] = merge_byte(mask_table()[place], file[place], body[1]);
            }
        }
        Kind::Colour => write_cell(colours, COLOUR_CELL, body),
        Kind::Cursor => write_cell(cursor, CURSOR_CELL, body),
        Kind::Show => {}
    }
    Ok(())
}
