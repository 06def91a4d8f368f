// The lines of the transcript: what happened to each message.
ghost use Rattle.std.specs.Prelude.{◌≡◌, map, Some};
ghost use Rattle.std.specs.Option.{option_map};
ghost use Rattle.day.specs.Law.{given_answers};
ghost use Rattle.orderfile.specs.Bodies.{told};
ghost use Rattle.transcript.specs.Lines.{next_answer, paired, reference_in, behind_blank, fault_number, answer_text, line, lines};

use book::requests::Answer;
use day::Turn;
use orderfile::asking::of_file;
use orderfile::faults::FileFault;
use orderfile::message::Message;
use report::text::Characters;
use std::fmt;

// A message's answer, and the turns behind its own. None for the closing call, and where the turns are used up.
fn next_answer<'t>(
    message: &Result<Message<'_>, FileFault>,
    turns: &'t [Turn],
) -> Option<(Result<Answer, FileFault>, &'t [Turn])>
    ensures { option_map (λ p. (p.0, given_answers p.1.now)) result ≡ next_answer (told message.now) (given_answers turns.now) }
{
    let asked = match message {
        Ok(asked) => asked,
        Err(fault) => return Some((Err(*fault), turns)),
    };
    let _request = asked.request()?;
    let [turn, rest @ ..] = turns else {
        return None;
    };
    Some((of_file(message, turn.answer), rest))
}

// The reference of an order that is entered, empty for any other message.
fn reference<'a>(message: &Result<Message<'a>, FileFault>) -> &'a [u8]
    ensures { result.now ≡ reference_in (told message.now) }
{
    match message {
        Ok(Message::Enter { reference, .. }) => reference,
        _ => &[],
    }
}

// A reference behind a blank, where there is one.
#[derive(Clone, Copy)]
struct BehindBlank<'a>(&'a [u8]);

impl fmt::Display for BehindBlank<'_> {
    ghost output = { λ reference. Some (behind_blank reference.0.now) };

    fn fmt<W: fmt::Write>(&self, f: &mut fmt::Formatter<W>) -> fmt::Result {
        match self.0 {
            [] => Ok(()),
            bytes => write!(f, " {}", Characters(bytes)),
        }
    }
}

// 0 for want of memory, which has no number and is no message's fault: a line has two numbers, so an `Option` would
// only be unpacked here.
fn fault_number(fault: FileFault) -> u8
    ensures { result ≡ fault_number fault }
{
    fault.number().unwrap_or(0)
}

// An answer as two numbers: 0 and the answer's own, or the fault's and 0.
#[derive(Clone, Copy)]
struct Answered(Result<Answer, FileFault>);

impl fmt::Display for Answered {
    ghost output = { λ answer. Some (answer_text answer.0) };

    fn fmt<W: fmt::Write>(&self, f: &mut fmt::Formatter<W>) -> fmt::Result {
        match self.0 {
            Ok(answer) => write!(f, "0 {}", answer.number()),
            Err(fault) => write!(f, "{} 0", fault_number(fault)),
        }
    }
}

// One message's line.
#[derive(Clone, Copy)]
struct Line<'l, 'a> {
    place: usize,
    message: &'l Result<Message<'a>, FileFault>,
    answer: Result<Answer, FileFault>,
}

impl fmt::Display for Line<'_, '_> {
    ghost output = { λ l. Some (line l.place (told l.message.now) l.answer) };

    fn fmt<W: fmt::Write>(&self, f: &mut fmt::Formatter<W>) -> fmt::Result {
        let place = self.place;
        let answer = Answered(self.answer);
        let reference = BehindBlank(reference(self.message));
        writeln!(f, "{place} {answer}{reference}")
    }
}

// The lines of the messages up to the first closing call: a message that reads has the next turn's answer. Two lists, since a
// message that does not read has no turn.
// Not `report`'s `Lines`: the answers come along, and the end may come early; one loop for both would be longer.
#[derive(Clone, Copy)]
pub struct Lines<'m, 't, 'a> {
    pub messages: &'m [Result<Message<'a>, FileFault>],
    pub turns: &'t [Turn],
}

impl fmt::Display for Lines<'_, '_, '_> {
    ghost output = { λ l. Some (lines 1 (paired (map told l.messages.now) (given_answers l.turns.now))) };

    fn fmt<W: fmt::Write>(&self, f: &mut fmt::Formatter<W>) -> fmt::Result {
        let mut turns = self.turns;
        for (i, message) in self.messages.iter().enumerate() {
            let Some((answer, rest)) = next_answer(message, turns) else {
                return Ok(());
            };
            let place = i + 1;
            write!(
                f,
                "{}",
                Line {
                    place,
                    message,
                    answer
                }
            )?;
            turns = rest;
        }
        Ok(())
    }
}
