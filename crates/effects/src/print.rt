// print_record: the line of a record that was done.
ghost use Rattle.std.specs.Prelude.{◌≡◌, ◌<◌, ◌≤◌, length};
ghost use Rattle.std.proofs.lemmas.List.Edits.{sets};
ghost use Rattle.reply.specs.Refusals.{reply_of};
ghost use Rattle.lines.specs.Lines.{added};
ghost use Rattle.records.specs.Kinds.{number_of};
ghost use Rattle.effects.specs.Effects.{shown};
ghost use Rattle.effects.specs.Printing.{record_line};

use lines::put_line;
use records::kind::Kind;
use records::record::Record;
use reply::{Refusal, reply_of};

// The byte of the file that a record shows, if it shows one.
#[tactic(auto, unfolding(crate::specs::Effects::shown, records::specs::Records::body_length))]
fn shown_byte(file: &[u8; 256], whole: Record) -> Option<u8>
    ensures { added result ≡ shown file.now (number_of whole.entry.kind) whole.entry.body.now }
{
    match whole.kind {
        Kind::Show => Some(file[usize::from(whole.body[0])]),
        _ => None,
    }
}

// The line goes to the front of what is lent; the answer is its length.
pub fn print_record(
    out: &mut [u8],
    whole: Record,
    answer: Result<(), Refusal>,
    file: &[u8; 256],
) -> usize
    requires { (length (record_line whole (reply_of answer) file.now) ≤ length out.old)
        × (reply_of answer < 10) }
    ensures { (out.new ≡ sets out.old 0 (record_line whole.entry (reply_of answer) file.now))
        × (result ≡ length (record_line whole.entry (reply_of answer) file.now)) }
{
    let shown = shown_byte(file, whole);
    put_line(out, u8::from(whole.kind), reply_of(answer), shown)
}
