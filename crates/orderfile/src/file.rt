// Whole order files: the head, and the message of each body.
ghost use Rattle.std.specs.Prelude.{◌≡◌, map, refl};
ghost use Rattle.std.specs.Result.{result_map_both};
ghost use Rattle.orderfile.specs.Bodies.{told};
ghost use Rattle.orderfile.specs.Format.{rule_letter};
ghost use Rattle.orderfile.specs.Law.{ReadsTheFormat};
ghost use Rattle.orderfile.specs.Reading.{rules, next_body, each_body, read_message, read_head, read_file, contents, UnlessMemory};
ghost use Rattle.orderfile.specs.declared.file.Rule.TheVariants.{V, P};

use crate::faults::FileFault;
use crate::message::Message;
use orders::letters::Lettered;
use std::alloc::Global;

const HEAD: usize = 7;

pub(crate) const LONGEST_FILE: usize = 65_536;

const MOST_MESSAGES: u16 = 1_024;

// Who trades with whom at the close: by the steps of rule V, or by the price priority of rule P.
#[derive(Clone, Copy, Debug, PartialEq, Eq)]
pub enum Rule {
    V,
    P,
}

#[derive(Clone, Copy, Debug, PartialEq, Eq)]
pub struct Head {
    pub rule: Rule,
    pub previous_close: u32,
    pub count: u16,
}

#[derive(Drop)]
pub struct OrderFile<'a> {
    pub head: Head,
    pub messages: Vec<Result<Message<'a>, FileFault>>,
}

impl Lettered for Rule {
    ghost letter_of = { rule_letter };

    ghost choices = { rules };

    ghost reads_back = { elim [ V ↦ refl | P ↦ refl ] };

    fn letter(self) -> u8 {
        match self {
            Rule::V => b'V',
            Rule::P => b'P',
        }
    }

    fn choices() -> &'static [Rule] {
        &[Rule::V, Rule::P]
    }
}

// The body at the front of `bytes`, behind its length, and the bytes behind the body.
fn split_body(bytes: &[u8]) -> Result<(&[u8], &[u8]), FileFault>
    ensures { result_map_both (λ p. (p.0.now, p.1.now)) (λ fault. fault) result ≡ next_body bytes.now }
{
    let [size, rest @ ..] = bytes else {
        return Err(FileFault::MissingBody);
    };
    let size = usize::from(*size);
    if size > rest.len() {
        return Err(FileFault::CutBody);
    }
    Ok(rest.split_at(size))
}

// A message's fault rises to the file layer.
fn read_message<'a>(body: &'a [u8]) -> Result<Message<'a>, FileFault>
    ensures { told result ≡ read_message body.now }
{
    Ok(Message::read(body)?)
}

// The messages of `count` bodies, which end where `bytes` end.
fn read_messages<'a>(
    heap: Global,
    count: u16,
    bytes: &'a [u8],
) -> Result<Vec<Result<Message<'a>, FileFault>>, FileFault>
    ensures { UnlessMemory (λ v. map told v.items) result (each_body read_message count bytes.now) }
{
    let mut messages = Vec::new(heap);
    let mut rest = bytes;
    for _ in 0..count {
        let (body, after) = split_body(rest)?;
        messages.push(read_message(body))?;
        rest = after;
    }
    if !rest.is_empty() {
        return Err(FileFault::ExtraBytes);
    }
    Ok(messages)
}

impl Head {
    pub fn read(file: &[u8]) -> Result<Head, FileFault>
        ensures { result ≡ read_head file.now }
    {
        if file.len() > LONGEST_FILE {
            return Err(FileFault::TooLong);
        }
        let [rule, p3, p2, p1, p0, n1, n0, ..] = file else {
            return Err(FileFault::ShortHead);
        };
        let rule = Rule::from_letter(*rule).ok_or(FileFault::UnknownRule)?;
        let count = u16::from_be_bytes([*n1, *n0]);
        if count > MOST_MESSAGES {
            return Err(FileFault::TooManyMessages);
        }
        let previous_close = u32::from_be_bytes([*p3, *p2, *p1, *p0]);
        Ok(Head {
            rule,
            previous_close,
            count,
        })
    }
}

impl<'a> OrderFile<'a> {
    pub fn read(heap: Global, file: &'a [u8]) -> Result<OrderFile<'a>, FileFault>
        ensures value { UnlessMemory contents result (read_file file.now) }
        ensures law { ReadsTheFormat file.now result }
    {
        let head = Head::read(file)?;
        let messages = read_messages(heap, head.count, &file[HEAD..])?;
        Ok(OrderFile { head, messages })
    }
}
