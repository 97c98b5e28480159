// cursor_row: one row of a lent cursor map, as a part of the caller's own bytes.
#![tactic(auto)]

ghost use Rattle.cursor.specs.Cursor.{row_start, row_count, PartIs};

// A map has 32 rows of eight bytes.
const MAP: usize = 256;

const ROWS: usize = 32;

const ROW: usize = 8;

// The eight bytes of a row; the empty part at the map's front for a row above 31 or a map of another length.
// A part and no Option: `row_start` and `row_count` promise that empty part.
pub fn cursor_row(map: &[u8], row: usize) -> &[u8]
    ensures { PartIs map.entry (row_start map.now row)
        (row_count map.now row) result }
{
    if map.len() != MAP {
        return &map[..0];
    }
    if ROWS <= row {
        return &map[..0];
    }
    let start = ROW * row;
    let end = start + ROW;
    &map[start..end]
}
