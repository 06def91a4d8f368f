// From a message to what it asks of the book, and from the book's answer to the message's.
ghost use Rattle.std.specs.Prelude.{◌≡◌};
ghost use Rattle.orderfile.specs.Asking.{request_of, answered};
ghost use Rattle.orderfile.specs.Bodies.{content, told};
ghost use Rattle.orderfile.specs.Faults.{asked};

use crate::faults::{FileFault, MessageFault};
use crate::message::Message;
use book::requests::{Answer, Request};
use orders::refusal::Refusal;

impl Message<'_> {
    // None for the closing call, which is no request.
    pub fn request(&self) -> Option<Request>
        ensures { result ≡ request_of (content self.now) }
    {
        match *self {
            Message::Enter { entry, .. } => Some(Request::Enter(entry)),
            Message::Amend { number, limit } => Some(Request::Amend { number, limit }),
            Message::Cancel { number } => Some(Request::Cancel { number }),
            Message::Take { number, volume } => Some(Request::Take { number, volume }),
            Message::Advance => Some(Request::Advance),
            Message::Call => None,
        }
    }
}

// A refusal of the book rises to the message layer.
pub fn of_message(answer: Result<Answer, Refusal>) -> Result<Answer, MessageFault>
    ensures { result ≡ asked answer }
{
    Ok(answer?)
}

// And from there to the file layer, where a message that does not read has its own fault.
pub fn of_file(
    message: &Result<Message<'_>, FileFault>,
    answer: Result<Answer, Refusal>,
) -> Result<Answer, FileFault>
    ensures { result ≡ answered (told message.now) answer }
{
    match message {
        Ok(_) => Ok(of_message(answer)?),
        Err(fault) => Err(*fault),
    }
}
