// The rows of a cursor map.
ghost use Rattle.std.specs.Prelude.{◌≡◌};
ghost use Rattle.thymeflask.specs.Results.{row_place};

use cursor::cursor_row;

// A row has so many bytes.
const ROW: usize = 8;

// Where a row begins in the map; the map's length for none.
#[unsafe(no_mangle)]
#[tactic(auto, using(crate::proofs::Empty::no_row, crate::proofs::Empty::some_row), unfolding(crate::specs::Results::row_place))]
pub extern "C" fn thymeflask_cursor_row(map: &[u8], row: u32) -> usize
    ensures { result ≡ row_place map.now row }
{
    let part = cursor_row(map, row as usize);
    if part.is_empty() {
        map.len()
    } else {
        ROW * (row as usize)
    }
}
