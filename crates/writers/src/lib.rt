// The leaf writers: data that has been tested goes into a lent file, or into the cells of a lent
// cursor map or colour table.
// Each asks what the tests have shown: the lent length, and that the run does not pass its end.
#![tactic(auto)]

ghost use Rattle.std.specs.Prelude.{◌≡◌, false, ◌*◌, ◌<◌, length};
ghost use Rattle.bits.specs.Run.{merge_run};
ghost use Rattle.chip.specs.Map.{masks};
ghost use Rattle.transactions.specs.Writes.{registers_pass, cells_pass};
ghost use Rattle.writers.specs.Cells.{cells_run};

use bits::merge::{merge_byte, merge_run};
use chip::map::mask_table;
use masks::mask_of;
use stores::store_run;
use transactions::start::start_of;

// Registers from a subaddress on: named bits take the new value, the others stay. One byte needs no
// loop, which costs more before its first.
#[tactic(auto, using(bits::proofs::Runs::run_one, transactions::proofs::Accepted::registers_end_lem))]
pub fn write_registers(file: &mut [u8], subaddress: u8, bytes: &[u8])
    requires { (length file.old ≡ 256) × (registers_pass subaddress bytes.now ≡ false) }
    ensures { file.new ≡ merge_run masks file.old subaddress bytes.now }
{
    let place = usize::from(subaddress);
    if let [byte] = bytes {
        file[place] = merge_byte(mask_of(subaddress), file[place], *byte);
    } else {
        merge_run(mask_table(), file, place, bytes);
    }
}

// Cells of the cursor map or of the colour table: the first byte is the start cell, and the bytes behind it
// go there and on, `width` to a cell. A number and no const parameter: no const argument can be 256 times one.
#[tactic(auto, using(transactions::proofs::Accepted::cells_fit, transactions::proofs::Starts::some_start), unfolding(crate::specs::Cells::cells_run, transactions::specs::Writes::from_start))]
pub fn write_cells(map: &mut [u8], width: usize, bytes: &[u8])
    requires { (0 < width) × (length map.old ≡ 256 * width) × (cells_pass width bytes.now ≡ false) }
    ensures { map.new ≡ cells_run width map.old bytes.now }
{
    if let [_, cells @ ..] = bytes {
        store_run(map, width * start_of(bytes), cells);
    }
}
