// Kind: the kinds of whole records, each with the byte that stands for it.
ghost use Rattle.std.specs.Prelude.{◌≡◌};
ghost use Rattle.records.specs.Kinds.{number_of, Decodes};
ghost use Rattle.records.specs.Records.{body_length};

use std::error::Error;
use std::fmt;

#[derive(Clone, Copy, Debug, PartialEq, Eq, Hash)]
pub enum Kind {
    // A request.
    Picture = 1,
    // A register byte.
    Register = 2,
    // A colour cell.
    Colour = 3,
    // A cursor byte.
    Cursor = 4,
    // A register that is shown.
    Show = 5,
}

// A byte that stands for no kind.
#[derive(Clone, Copy, Debug, PartialEq, Eq, Hash)]
pub struct UnknownKind(pub u8);

impl Kind {
    // How many bytes the body has.
    #[tactic(auto, unfolding(crate::specs::Records::body_length))]
    pub fn body_length(self) -> usize
        ensures { result ≡ body_length (number_of self) }
    {
        match self {
            Kind::Picture => 18,
            Kind::Register => 2,
            Kind::Colour => 4,
            Kind::Cursor => 2,
            Kind::Show => 1,
        }
    }
}

impl From<Kind> for u8 {
    ghost from_gives = { λ kind byte. byte ≡ number_of kind };

    fn from(kind: Kind) -> u8 {
        kind as u8
    }
}

impl TryFrom<u8> for Kind {
    type Error = UnknownKind;

    ghost try_from_gives = { Decodes };

    fn try_from(byte: u8) -> Result<Kind, UnknownKind> {
        match byte {
            1 => Ok(Kind::Picture),
            2 => Ok(Kind::Register),
            3 => Ok(Kind::Colour),
            4 => Ok(Kind::Cursor),
            5 => Ok(Kind::Show),
            _ => Err(UnknownKind(byte)),
        }
    }
}

impl fmt::Display for UnknownKind {
    fn fmt<W: fmt::Write>(&self, f: &mut fmt::Formatter<W>) -> fmt::Result {
        write!(f, "no kind of record has the byte {}", self.0)
    }
}

impl Error for UnknownKind {}
