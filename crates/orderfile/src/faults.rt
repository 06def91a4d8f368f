// What can be wrong with an order file and with a message, and that the book may refuse what a message asks. Each fault
// has its number and its layer.
ghost use Rattle.std.specs.Prelude.{◌≡◌, Some};
ghost use Rattle.orderfile.specs.Faults.{message_number, message_layer, file_number, file_layer};
ghost use Rattle.orderfile.specs.Words.{message_words, file_words};
ghost use Rattle.orderfile.specs.declared.faults.FileFault.TheVariants.{Message as rises, Memory as runs_out};
ghost use Rattle.orderfile.specs.declared.faults.MessageFault.TheVariants.{Book as refuses};

use orders::refusal::Refusal;
use std::alloc::AllocFailed;
use std::error::Error;
use std::fmt;

// The layer that found a fault.
#[derive(Clone, Copy, Debug, PartialEq, Eq)]
pub enum Layer {
    File,
    Message,
    Book,
}

// One message is not as the format asks, or, under `Book`, the book refuses what it asks; the messages after it are
// still read.
#[derive(Clone, Copy, Debug, PartialEq, Eq)]
pub enum MessageFault {
    Empty,
    UnknownLetter,
    WrongLength,
    BadKind,
    BadSide,
    BadFlag,
    BadReference,
    // The message reads, and the book refuses what it asks.
    Book(Refusal),
}

// The whole file is refused, or, under `Message`, one message of it is.
#[derive(Clone, Copy, Debug, PartialEq, Eq)]
pub enum FileFault {
    TooLong,
    ShortHead,
    UnknownRule,
    TooManyMessages,
    // Fewer bodies than the head counts.
    MissingBody,
    // A body's length runs past the end of the file.
    CutBody,
    // Bytes behind the last counted body.
    ExtraBytes,
    Message(MessageFault),
    // The machine has no memory for the messages: no refusal, so it has no number.
    Memory,
}

impl MessageFault {
    // A method, and no `From`: `u8::from(fault)` would not say that it is the number and not the layer.
    pub fn number(self) -> u8
        ensures { result ≡ message_number self }
    {
        match self {
            MessageFault::Empty | MessageFault::UnknownLetter | MessageFault::WrongLength => 19,
            MessageFault::BadKind
            | MessageFault::BadSide
            | MessageFault::BadFlag
            | MessageFault::BadReference => 20,
            MessageFault::Book(refusal) => refusal.number(),
        }
    }

    // A method as the number is: `Layer::from(fault)` would read no plainer than `fault.layer()`.
    pub fn layer(self) -> Layer
        ensures { result ≡ message_layer self }
    {
        match self {
            MessageFault::Book(_) => Layer::Book,
            _ => Layer::Message,
        }
    }

    // What is wrong, in words.
    pub fn as_str(self) -> &'static str
        ensures { result.now ≡ message_words self }
    {
        match self {
            MessageFault::Empty => "the message is empty",
            MessageFault::UnknownLetter => "the letter is none of E, A, X, T, P and C",
            MessageFault::WrongLength => "the message has the wrong length for its letter",
            MessageFault::BadKind => "the kind is none of M, L and D",
            MessageFault::BadSide => "the side is neither B nor S",
            MessageFault::BadFlag => "the flag is neither P nor N",
            MessageFault::BadReference => "the reference has a byte other than A to Z and 0 to 9",
            MessageFault::Book(refusal) => refusal.as_str(),
        }
    }
}

impl fmt::Display for MessageFault {
    ghost output = { λ fault. Some (message_words fault) };

    fn fmt<W: fmt::Write>(&self, f: &mut fmt::Formatter<W>) -> fmt::Result {
        f.write_str(self.as_str())
    }
}

impl Error for MessageFault {}

impl FileFault {
    // A method, and no `From`: there may be none.
    pub fn number(self) -> Option<u8>
        ensures { result ≡ file_number self }
    {
        match self {
            FileFault::Message(fault) => Some(fault.number()),
            FileFault::Memory => None,
            _ => Some(18),
        }
    }

    // A method as the number is: `Layer::from(fault)` would read no plainer than `fault.layer()`.
    pub fn layer(self) -> Layer
        ensures { result ≡ file_layer self }
    {
        match self {
            FileFault::Message(fault) => fault.layer(),
            _ => Layer::File,
        }
    }

    // What is wrong, in words.
    pub fn as_str(self) -> &'static str
        ensures { result.now ≡ file_words self }
    {
        match self {
            FileFault::TooLong => "the file is longer than 65536 bytes",
            FileFault::ShortHead => "the head is shorter than 7 bytes",
            FileFault::UnknownRule => "the rule letter is neither V nor P",
            FileFault::TooManyMessages => "the head counts more than 1024 messages",
            FileFault::MissingBody => "the file ends before the last message",
            FileFault::CutBody => "a message runs past the end of the file",
            FileFault::ExtraBytes => "bytes follow the last message",
            FileFault::Message(fault) => fault.as_str(),
            FileFault::Memory => "there is not enough memory",
        }
    }
}

impl fmt::Display for FileFault {
    ghost output = { λ fault. Some (file_words fault) };

    fn fmt<W: fmt::Write>(&self, f: &mut fmt::Formatter<W>) -> fmt::Result {
        f.write_str(self.as_str())
    }
}

impl Error for FileFault {}

impl From<Refusal> for MessageFault {
    ghost from_gives = { λ cause r. r ≡ refuses cause };

    fn from(cause: Refusal) -> MessageFault {
        MessageFault::Book(cause)
    }
}

impl From<MessageFault> for FileFault {
    ghost from_gives = { λ cause r. r ≡ rises cause };

    fn from(cause: MessageFault) -> FileFault {
        FileFault::Message(cause)
    }
}

impl<T: Drop> From<AllocFailed<T>> for FileFault {
    ghost from_gives = { λ _ r. r ≡ runs_out };

    fn from(_unplaced: AllocFailed<T>) -> FileFault {
        Self::Memory
    }
}
