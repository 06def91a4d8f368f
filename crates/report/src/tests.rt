// Files, good and damaged, each with its whole text.
use crate::{Dollars, describe};
use orderfile::input::read_bytes;
use std::alloc::Global;
use std::process::Abort;
use std::test::Fail;

// A file of rule V with a previous close of 10.0000.
fn file(heap: Global, bodies: &[&[u8]]) -> Result<Vec<u8>, Fail> {
    let mut bytes = Vec::from_slice(heap, b"V\x00\x01\x86\xa0")?;
    let count = u16::try_from(bodies.len())?;
    bytes.extend_from_slice(&count.to_be_bytes())?;
    for body in bodies {
        bytes.push(u8::try_from(body.len())?)?;
        bytes.extend_from_slice(body)?;
    }
    Ok(bytes)
}

// An enter message for 40 shares at 10.0100 of broker 7, with these letters for its kind, side and flag.
fn enter(heap: Global, letters: &[u8], reference: &[u8]) -> Result<Vec<u8>, Fail> {
    let mut body = Vec::from_slice(heap, b"E")?;
    body.extend_from_slice(letters)?;
    body.extend_from_slice(&7u16.to_be_bytes())?;
    body.extend_from_slice(&100_100u32.to_be_bytes())?;
    body.extend_from_slice(&40u32.to_be_bytes())?;
    body.extend_from_slice(reference)?;
    Ok(body)
}

// A file of 65,536 bytes: 256 messages that are too long for their letter.
fn longest_file(heap: Global) -> Result<Vec<u8>, Fail> {
    let body = [b'E'; 255];
    let mut bytes = Vec::from_slice(heap, b"V\x00\x01\x86\xa0\x01\x00")?;
    for _ in 0..255 {
        bytes.push(255)?;
        bytes.extend_from_slice(&body)?;
    }
    bytes.push(248)?;
    bytes.extend_from_slice(&body[0..248])?;
    Ok(bytes)
}

fn longest_text(heap: Global) -> Result<String, Fail> {
    let mut text = String::from_str(heap, "rule V, previous close 10.0000, 256 messages\n")?;
    for place in 1..257 {
        writeln!(
            text,
            "{place} fault 19: the message has the wrong length for its letter"
        )?;
    }
    Ok(text)
}

fn says(rt: &impl Abort, heap: Global, file: &[u8], text: &str) -> Result<(), Fail> {
    let said = describe(heap, file)?;
    assert_eq!(rt; said.as_str(), text);
    Ok(())
}

fn refusal_says(rt: &impl Abort, heap: Global, file: &[u8], why: &str) -> Result<(), Fail> {
    let all = format!(in heap; "refused 18: {why}\n")?;
    says(rt, heap, file, all.as_str())
}

// What is said of a file's only message, behind its place.
fn message_says(rt: &impl Abort, heap: Global, body: &[u8], text: &str) -> Result<(), Fail> {
    let bytes = file(heap, &[body])?;
    let all = format!(in heap; "rule V, previous close 10.0000, 1 message\n1 {text}\n")?;
    says(rt, heap, bytes.as_slice(), all.as_str())
}

fn enter_says(
    rt: &impl Abort,
    heap: Global,
    letters: &[u8],
    reference: &[u8],
    text: &str,
) -> Result<(), Fail> {
    let body = enter(heap, letters, reference)?;
    message_says(rt, heap, body.as_slice(), text)
}

#[test]
fn prices(rt: HostRuntime) -> Result<(), Fail> {
    let heap = rt.alloc();
    assert_eq!(rt; Dollars(0).to_string(heap)?.as_str(), "0.0000");
    assert_eq!(rt; Dollars(50).to_string(heap)?.as_str(), "0.0050");
    assert_eq!(rt; Dollars(100_200).to_string(heap)?.as_str(), "10.0200");
    assert_eq!(rt;
        Dollars(4_294_967_295).to_string(heap)?.as_str(),
        "429496.7295"
    );
    Ok(())
}

#[test]
fn every_kind_of_message(rt: HostRuntime) -> Result<(), Fail> {
    let heap = rt.alloc();
    let buy = enter(heap, b"DBP", b"A1")?;
    let wrong = enter(heap, b"DXP", b"")?;
    let sell = enter(heap, b"LSN", b"")?;
    let bytes = file(
        heap,
        &[
            buy.as_slice(),
            wrong.as_slice(),
            sell.as_slice(),
            b"A\x00\x02\x00\x01\x86\xa0",
            b"X\x00\x02",
            b"T\x00\x01\x00\x00\x00\x28",
            b"P",
            b"C",
        ],
    )?;
    says(
        &rt,
        heap,
        bytes.as_slice(),
        "rule V, previous close 10.0000, 8 messages\n\
        1 enter displayed buy 40 at 10.0100, flag P, broker 7, reference A1\n\
        2 fault 20: the side is neither B nor S\n\
        3 enter limit sell 40 at 10.0100, flag N, broker 7\n\
        4 amend order 2 to 10.0000\n\
        5 cancel order 2\n\
        6 take 40 of order 1\n\
        7 advance\n\
        8 call\n",
    )?;
    says(
        &rt,
        heap,
        b"P\x00\x00\x00\x32\x00\x00",
        "rule P, previous close 0.0050, 0 messages\n",
    )
}

#[test]
fn refused_files(rt: HostRuntime) -> Result<(), Fail> {
    let heap = rt.alloc();
    refusal_says(&rt, heap, b"", "the head is shorter than 7 bytes")?;
    refusal_says(
        &rt,
        heap,
        b"V\x00\x01\x86\xa0\x00",
        "the head is shorter than 7 bytes",
    )?;
    refusal_says(
        &rt,
        heap,
        b"v\x00\x01\x86\xa0\x00\x00",
        "the rule letter is neither V nor P",
    )?;
    refusal_says(
        &rt,
        heap,
        b"V\x00\x01\x86\xa0\x04\x01",
        "the head counts more than 1024 messages",
    )?;
    refusal_says(
        &rt,
        heap,
        b"V\x00\x01\x86\xa0\x00\x02\x01P",
        "the file ends before the last message",
    )?;
    refusal_says(
        &rt,
        heap,
        b"V\x00\x01\x86\xa0\x00\x01\x02P",
        "a message runs past the end of the file",
    )?;
    refusal_says(
        &rt,
        heap,
        b"V\x00\x01\x86\xa0\x00\x01\x01PC",
        "bytes follow the last message",
    )
}

#[test]
fn longest_files(rt: HostRuntime) -> Result<(), Fail> {
    let heap = rt.alloc();
    let mut bytes = longest_file(heap)?;
    assert_eq!(rt; bytes.len(), 65_536);
    says(&rt, heap, bytes.as_slice(), longest_text(heap)?.as_str())?;
    bytes.push(b'P')?;
    refusal_says(
        &rt,
        heap,
        bytes.as_slice(),
        "the file is longer than 65536 bytes",
    )
}

#[test]
fn files_are_read_past_the_longest(rt: HostRuntime) -> Result<(), Fail> {
    let heap = rt.alloc();
    let mut bytes = longest_file(heap)?;
    let longest = read_bytes(heap, bytes.as_slice())?;
    assert_eq!(rt; longest.as_slice(), bytes.as_slice());
    bytes.extend_from_slice(b"PC")?;
    let longer = read_bytes(heap, bytes.as_slice())?;
    assert_eq!(rt; longer.len(), 65_537);
    Ok(())
}

#[test]
fn damaged_messages(rt: HostRuntime) -> Result<(), Fail> {
    let heap = rt.alloc();
    message_says(&rt, heap, b"", "fault 19: the message is empty")?;
    message_says(
        &rt,
        heap,
        b"Z",
        "fault 19: the letter is none of E, A, X, T, P and C",
    )?;
    message_says(
        &rt,
        heap,
        b"p",
        "fault 19: the letter is none of E, A, X, T, P and C",
    )?;
    message_says(
        &rt,
        heap,
        b"EDBP\x00\x07\x00\x01\x87\x04\x00\x00\x00",
        "fault 19: the message has the wrong length for its letter",
    )?;
    message_says(
        &rt,
        heap,
        b"A\x00\x02\x00\x01\x86",
        "fault 19: the message has the wrong length for its letter",
    )
}

#[test]
fn damaged_enters(rt: HostRuntime) -> Result<(), Fail> {
    let heap = rt.alloc();
    enter_says(
        &rt,
        heap,
        b"XBP",
        b"",
        "fault 20: the kind is none of M, L and D",
    )?;
    enter_says(
        &rt,
        heap,
        b"DXP",
        b"",
        "fault 20: the side is neither B nor S",
    )?;
    enter_says(
        &rt,
        heap,
        b"DBX",
        b"",
        "fault 20: the flag is neither P nor N",
    )?;
    enter_says(
        &rt,
        heap,
        b"DBP",
        b"A-1",
        "fault 20: the reference has a byte other than A to Z and 0 to 9",
    )?;
    enter_says(
        &rt,
        heap,
        b"MSP",
        b"ABCDEFGHIJ0123456789",
        "enter market sell 40 at 10.0100, flag P, broker 7, reference ABCDEFGHIJ0123456789",
    )?;
    enter_says(
        &rt,
        heap,
        b"MSP",
        b"ABCDEFGHIJ0123456789K",
        "fault 19: the message has the wrong length for its letter",
    )
}
