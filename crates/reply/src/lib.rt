// The answers of the operations: done, or one of the refusals that document 01 lists with their numbers.
#![tactic(auto)]

ghost use Rattle.std.specs.Prelude.{◌≡◌};
ghost use Rattle.reply.specs.Refusals.{number_of, reply_of};

use std::error::Error;
use std::fmt;

// Why an operation was refused, in the order of the numbers. Where several apply, the first is given.
#[derive(Clone, Copy, Debug, PartialEq, Eq, PartialOrd, Ord, Hash)]
pub enum Refusal {
    // A transaction, a read or a lent file of the wrong length.
    WrongLength = 1,
    // Not the write address, or not the read address of a read.
    WrongAddress = 2,
    // A run that passes its end, or colour bytes that are not whole threes.
    PassesEnd = 3,
    // A standard or a source picture that cannot be, or a wrong chip byte.
    WrongRequest = 4,
    // An output limit is broken.
    OutputLimit = 5,
    // A number does not fit its field.
    TooLarge = 6,
    // The pixel clock is over 45 MHz.
    TooFast = 7,
    // A weight is below 0 or does not fit its field.
    WrongWeight = 8,
    // The file is no accepted picture's.
    NoPicture = 9,
    // Two files differ in a bit that the map does not name, or in a caption byte.
    NotWritable = 10,
    // A list of writes is longer than the lent buffer.
    TooLong = 11,
    // A read of another place than the readable three.
    NotReadable = 12,
}

impl From<Refusal> for u8 {
    ghost from_gives = { λ refusal n. n ≡ number_of refusal };

    fn from(refusal: Refusal) -> u8 {
        refusal as u8
    }
}

impl fmt::Display for Refusal {
    fn fmt<W: fmt::Write>(&self, f: &mut fmt::Formatter<W>) -> fmt::Result {
        f.write_str(match self {
            Refusal::WrongLength => "a wrong length",
            Refusal::WrongAddress => "a wrong address",
            Refusal::PassesEnd => "a run that passes its end",
            Refusal::WrongRequest => "a picture or a chip that cannot be",
            Refusal::OutputLimit => "an output limit is broken",
            Refusal::TooLarge => "a number does not fit its field",
            Refusal::TooFast => "the pixel clock is too fast",
            Refusal::WrongWeight => "a weight does not fit its field",
            Refusal::NoPicture => "no accepted picture's file",
            Refusal::NotWritable => "a difference that no write reaches",
            Refusal::TooLong => "the list is longer than the buffer",
            Refusal::NotReadable => "no readable place",
        })
    }
}

impl Error for Refusal {}

// The number of an answer: 0 where it is done, else the refusal's.
pub fn reply_of(answer: Result<(), Refusal>) -> u8
    ensures { result ≡ reply_of answer }
{
    match answer {
        Ok(()) => 0,
        Err(refusal) => u8::from(refusal),
    }
}
