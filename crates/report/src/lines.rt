// The lines of the text: the head's, and each message's.
ghost use Rattle.std.specs.Prelude.{map, Some};
ghost use Rattle.orderfile.specs.Bodies.{content, told};
ghost use Rattle.report.specs.Lines.{order_text, message_text, line, lines, head_line};

use crate::text::{Characters, Dollars};
use crate::words;
use crate::words::Wrong;
use orderfile::faults::FileFault;
use orderfile::file::Head;
use orderfile::message::Message;
use orders::Entry;
use orders::letters::Lettered;
use std::fmt;

// What is entered.
#[derive(Clone, Copy)]
struct Order(Entry);

impl fmt::Display for Order {
    ghost output = { λ order. Some (order_text order.0) };

    fn fmt<W: fmt::Write>(&self, f: &mut fmt::Formatter<W>) -> fmt::Result {
        let Entry {
            kind,
            side,
            flag,
            broker,
            limit,
            volume,
        } = self.0;
        let price = Dollars(limit);
        let flag = char::from(flag.letter());
        write!(
            f,
            "enter {kind} {side} {volume} at {price}, flag {flag}, broker {broker}"
        )
    }
}

// What a message asks for.
#[derive(Clone, Copy)]
struct Request<'a>(Message<'a>);

impl fmt::Display for Request<'_> {
    ghost output = { λ request. Some (message_text (content request.0)) };

    fn fmt<W: fmt::Write>(&self, f: &mut fmt::Formatter<W>) -> fmt::Result {
        match self.0 {
            Message::Enter {
                entry,
                reference: [],
            } => write!(f, "{}", Order(entry)),
            Message::Enter { entry, reference } => {
                let order = Order(entry);
                let reference = Characters(reference);
                write!(f, "{order}, reference {reference}")
            }
            Message::Amend { number, limit } => {
                let price = Dollars(limit);
                write!(f, "amend order {number} to {price}")
            }
            Message::Cancel { number } => write!(f, "cancel order {number}"),
            Message::Take { number, volume } => write!(f, "take {volume} of order {number}"),
            Message::Advance => f.write_str("advance"),
            Message::Call => f.write_str("call"),
        }
    }
}

// A message, or what is wrong with it, behind its place in the file.
#[derive(Clone, Copy)]
struct Line<'l, 'a> {
    place: usize,
    message: &'l Result<Message<'a>, FileFault>,
}

impl fmt::Display for Line<'_, '_> {
    ghost output = { λ l. Some (line l.place (told l.message.now)) };

    fn fmt<W: fmt::Write>(&self, f: &mut fmt::Formatter<W>) -> fmt::Result {
        let place = self.place;
        match self.message {
            Ok(message) => writeln!(f, "{place} {}", Request(*message)),
            Err(fault) => writeln!(f, "{place} fault {}", Wrong(*fault)),
        }
    }
}

// The lines of a file's messages. The transcript's lines are a type of their own: they have answers, and may end early.
#[derive(Clone, Copy)]
pub struct Lines<'l, 'a>(pub &'l [Result<Message<'a>, FileFault>]);

impl fmt::Display for Lines<'_, '_> {
    ghost output = { λ l. Some (lines 1 (map told l.0.now)) };

    fn fmt<W: fmt::Write>(&self, f: &mut fmt::Formatter<W>) -> fmt::Result {
        for (i, message) in self.0.iter().enumerate() {
            let place = i + 1;
            write!(f, "{}", Line { place, message })?;
        }
        Ok(())
    }
}

// The head of a file.
#[derive(Clone, Copy)]
pub struct HeadLine(pub Head);

impl fmt::Display for HeadLine {
    ghost output = { λ head. Some (head_line head.0) };

    fn fmt<W: fmt::Write>(&self, f: &mut fmt::Formatter<W>) -> fmt::Result {
        let Head {
            rule,
            previous_close,
            count,
        } = self.0;
        let rule = char::from(rule.letter());
        let close = Dollars(previous_close);
        let plural = words::plural(count);
        writeln!(
            f,
            "rule {rule}, previous close {close}, {count} message{plural}"
        )
    }
}
