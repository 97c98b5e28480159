// write_list: headings and data into a lent buffer.
ghost use Rattle.std.specs.Prelude.{◌≡◌, ◌≤◌, length};
ghost use Rattle.std.proofs.lemmas.List.Edits.{sets};
ghost use Rattle.runs.specs.Found.{heading_bytes};
ghost use Rattle.plan.specs.Spelled.{spelled, HeadsFit};

use chip::file::FILE_LENGTH;
use runs::find::Heading;
use stores::store_run;

// Each heading goes to the buffer, and behind it the wanted file's bytes in its places. The headings must
// lie in the file, and all of it in the buffer.
pub fn write_list(to: &[u8; FILE_LENGTH], headings: &[Heading], out: &mut [u8])
    requires { HeadsFit to.now (heading_bytes headings.now)
        × (length (spelled to.now (heading_bytes headings.now)) ≤ length out.old) }
    ensures { out.new ≡ sets out.old 0 (spelled to.now (heading_bytes headings.now)) }
{
    let mut at = 0;
    for heading in headings {
        let start = usize::from(heading.start);
        let count = usize::from(heading.count);
        out[at] = heading.start;
        out[at + 1] = heading.count;
        store_run(out, at + 2, &to[start..start + count]);
        at += 2 + count;
    }
}
