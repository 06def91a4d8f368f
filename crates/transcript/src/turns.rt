// The requests of a file's messages, to be answered in turn.
ghost use Rattle.std.specs.Prelude.{◌≡◌, map, IfOk};
ghost use Rattle.orderfile.specs.Bodies.{told};
ghost use Rattle.transcript.specs.Turns.{requests_in, unanswered};

use day::Turn;
use orderfile::faults::FileFault;
use orderfile::message::Message;
use orders::refusal::Refusal;
use std::alloc::{AllocError, Global};

// The requests of the messages that read, up to the first closing call. `BookClosed` holds the
// place of each answer: no `Option`, since the day writes every one, and each reader would unpack it for nothing.
pub fn turns(
    heap: Global,
    messages: &[Result<Message<'_>, FileFault>],
) -> Result<Vec<Turn>, AllocError>
    ensures { IfOk result (λ v. v.items ≡ map unanswered (requests_in (map told messages.now))) }
{
    let mut turns = Vec::new(heap);
    for message in messages {
        let Ok(message) = message else {
            continue;
        };
        let Some(request) = message.request() else {
            return Ok(turns);
        };
        let answer = Err(Refusal::BookClosed);
        turns.push(Turn { request, answer })?;
    }
    Ok(turns)
}
