// The messages of an order file, and how one is read from its body.
ghost use Rattle.std.specs.Prelude.{◌≡◌};
ghost use Rattle.orders.specs.Letters.{kind_of, side_of, flag_of};
ghost use Rattle.orderfile.specs.Bodies.{told, reference_byte, reference_bytes, read_order, read_enter, read_fields, read_body};

use crate::faults::MessageFault;
use orders::letters::Lettered;
use orders::{Entry, Kind, PegFlag, Side};

const LONGEST_REFERENCE: usize = 20;

// What a member or the exchange asks of the book. The reference is the member's own name for an order, as it stands in
// the file.
#[derive(Clone, Copy)]
pub enum Message<'a> {
    Enter { entry: Entry, reference: &'a [u8] },
    Amend { number: u16, limit: u32 },
    Cancel { number: u16 },
    Take { number: u16, volume: u32 },
    Advance,
    Call,
}

fn is_reference_byte(b: u8) -> bool
    ensures { result ≡ reference_byte b }
{
    b.is_ascii_uppercase() || b.is_ascii_digit()
}

fn is_reference(bytes: &[u8]) -> bool
    ensures { result ≡ reference_bytes bytes.now }
{
    bytes.iter().all(|b| is_reference_byte(*b))
}

// The order that an enter message asks for, if its letters and its reference are good.
fn enter<'a>(
    kind: u8,
    side: u8,
    flag: u8,
    broker: u16,
    limit: u32,
    volume: u32,
    reference: &'a [u8],
) -> Result<Message<'a>, MessageFault>
    ensures { told result ≡ read_order (kind_of kind) (side_of side) (flag_of flag) broker limit volume reference.now }
{
    let kind = Kind::from_letter(kind).ok_or(MessageFault::BadKind)?;
    let side = Side::from_letter(side).ok_or(MessageFault::BadSide)?;
    let flag = PegFlag::from_letter(flag).ok_or(MessageFault::BadFlag)?;
    if !is_reference(reference) {
        return Err(MessageFault::BadReference);
    }
    let entry = Entry {
        kind,
        side,
        flag,
        broker,
        limit,
        volume,
    };
    Ok(Message::Enter { entry, reference })
}

fn read_enter<'a>(fields: &'a [u8]) -> Result<Message<'a>, MessageFault>
    ensures { told result ≡ read_enter fields.now }
{
    let [
        kind,
        side,
        flag,
        b1,
        b0,
        l3,
        l2,
        l1,
        l0,
        v3,
        v2,
        v1,
        v0,
        reference @ ..,
    ] = fields
    else {
        return Err(MessageFault::WrongLength);
    };
    if reference.len() > LONGEST_REFERENCE {
        return Err(MessageFault::WrongLength);
    }
    let broker = u16::from_be_bytes([*b1, *b0]);
    let limit = u32::from_be_bytes([*l3, *l2, *l1, *l0]);
    let volume = u32::from_be_bytes([*v3, *v2, *v1, *v0]);
    enter(*kind, *side, *flag, broker, limit, volume, reference)
}

// The message with this letter. The length is tested before the fields.
fn read_fields<'a>(letter: u8, fields: &'a [u8]) -> Result<Message<'a>, MessageFault>
    ensures { told result ≡ read_fields letter fields.now }
{
    match (letter, fields) {
        (b'E', _) => read_enter(fields),
        (b'A', [n1, n0, l3, l2, l1, l0]) => Ok(Message::Amend {
            number: u16::from_be_bytes([*n1, *n0]),
            limit: u32::from_be_bytes([*l3, *l2, *l1, *l0]),
        }),
        (b'X', [n1, n0]) => Ok(Message::Cancel {
            number: u16::from_be_bytes([*n1, *n0]),
        }),
        (b'T', [n1, n0, v3, v2, v1, v0]) => Ok(Message::Take {
            number: u16::from_be_bytes([*n1, *n0]),
            volume: u32::from_be_bytes([*v3, *v2, *v1, *v0]),
        }),
        (b'P', []) => Ok(Message::Advance),
        (b'C', []) => Ok(Message::Call),
        (b'A' | b'X' | b'T' | b'P' | b'C', _) => Err(MessageFault::WrongLength),
        _ => Err(MessageFault::UnknownLetter),
    }
}

impl<'a> Message<'a> {
    // The message of one body: its letter, then its fields.
    pub fn read(body: &'a [u8]) -> Result<Message<'a>, MessageFault>
        ensures { told result ≡ read_body body.now }
    {
        match body {
            [] => Err(MessageFault::Empty),
            [letter, fields @ ..] => read_fields(*letter, fields),
        }
    }
}
