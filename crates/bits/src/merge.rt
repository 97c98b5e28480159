// merge_byte and merge_run: the bits of a mask from the new byte, all others from the old one.
ghost use Rattle.std.specs.Prelude.{◌≡◌, ◌+◌, ◌≤◌, length};
ghost use Rattle.bits.specs.Merge.{merge};
ghost use Rattle.bits.specs.Run.{merge_run};

// Two masked halves joined: no bit comes from both.
#[tactic(auto, using(crate::proofs::Merging::merge_halves))]
pub fn merge_byte(mask: u8, old: u8, new: u8) -> u8
    ensures { result ≡ merge mask old new }
{
    (old & !mask) | (new & mask)
}

// Each byte of a run is merged into its place, under the place's mask. The run must lie in the file. A place and
// no part of the file: the masks go by the same one.
pub fn merge_run(masks: &[u8], file: &mut [u8], at: usize, bytes: &[u8])
    requires { (at + length bytes.now ≤ length file.old) × (length file.old ≤ length masks.now) }
    ensures { file.new
        ≡ merge_run masks.now file.old at bytes.now }
{
    for (i, &byte) in bytes.iter().enumerate() {
        let place = at + i;
        file[place] = merge_byte(masks[place], file[place], byte);
    }
}
