// Record: a whole record, its kind with its body. The body is as long as the kind says.
ghost use Rattle.std.specs.Prelude.{◌≡◌, length};
ghost use Rattle.records.specs.Kinds.{number_of};
ghost use Rattle.records.specs.Records.{body_length};

use crate::kind::Kind;

#[derive(Clone, Copy, Debug, PartialEq, Eq)]
pub struct Record<'a> {
    pub kind: Kind,
    pub body: &'a [u8],
    pub ghost long: { length body.now ≡ body_length (number_of kind) },
}
