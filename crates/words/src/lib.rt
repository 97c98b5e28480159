// put_words: numbers of 32 bits into lent bytes, the low byte first.
#![tactic(auto)]

ghost use Rattle.std.specs.Prelude.{◌≡◌, ◌*◌, length};
ghost use Rattle.words.specs.Words.{words_of};

// A number has so many bytes.
const WORD: usize = 4;

// Every number, one behind the other. The bytes must be just as many as they take.
pub fn put_words(bytes: &mut [u8], values: &[u32])
    requires { length bytes.old ≡ 4 * length values.now }
    ensures { bytes.new ≡ words_of values.now }
{
    for (i, value) in values.iter().enumerate() {
        // By places, since a proof knows no elements of what `chunks_exact_mut` has lent.
        bytes[WORD * i..WORD * (i + 1)].copy_from_slice(&value.to_le_bytes());
    }
}
