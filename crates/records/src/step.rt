// record_at: the record at a place of a session.
ghost use Rattle.std.specs.Prelude.{◌≡◌};
ghost use Rattle.records.specs.Records.{record_at};
ghost use Rattle.records.specs.Told.{told_step};

use crate::kind::Kind;

// What stands at a place of a session. An enum of its own, since Option and Result have two cases.
#[derive(Clone, Copy, Debug, PartialEq, Eq)]
pub enum Step {
    // A whole record: its kind, where its body begins, and where the next record does. Places and no slice, so
    // that the session may be written or gone while a caller holds a step.
    Record {
        kind: Kind,
        body: usize,
        next: usize,
    },
    // A kind byte whose body is cut short, or which is no known kind.
    Broken(u8),
    // Nothing is left.
    End,
}

// A session and a place and no Reader: the customer's paper has the functions over the reader thin.
pub fn record_at(session: &[u8], at: usize) -> Step
    ensures { told_step result ≡ record_at session.now at }
{
    if session.len() <= at {
        return Step::End;
    }
    let byte = session[at];
    let Ok(kind) = Kind::try_from(byte) else {
        return Step::Broken(byte);
    };
    let length = kind.body_length();
    let body = at + 1;
    if session.len() - body < length {
        return Step::Broken(byte);
    }
    Step::Record {
        kind,
        body,
        next: body + length,
    }
}
