//! Sessions by RFC 1928, with their bytes written out.

use super::*;
use std::alloc::Global;
use std::test::Fail;

/// The answer to the last of these bytes. `None` where one before it ended the session, and where the
/// last one's answer doesn't agree with `done`.
fn answer_to(alloc: Global, bytes: &[u8]) -> Option<SocksAnswer> {
    let mut socks = Socks::new(alloc);
    let mut last = SocksAnswer::More;
    for byte in bytes {
        if socks.done() {
            return None;
        }
        last = socks.step(*byte);
    }
    let is_over = matches!(last, SocksAnswer::Want(_) | SocksAnswer::Refused(_));
    if socks.done() == is_over {
        Some(last)
    } else {
        None
    }
}

/// The fault of a refusal.
fn fault(answer: SocksAnswer) -> Option<SocksFault> {
    match answer {
        SocksAnswer::Refused(fault) => Some(fault),
        _other => None,
    }
}

/// What is to be said.
fn said(answer: SocksAnswer) -> Option<[u8; 2]> {
    match answer {
        SocksAnswer::Say(bytes) => Some(bytes),
        _other => None,
    }
}

/// What is asked for.
fn wanted(answer: SocksAnswer) -> Option<SocksWant> {
    match answer {
        SocksAnswer::Want(want) => Some(want),
        _other => None,
    }
}

/// Whether a connection to this host and port is asked for, or where no port is given the host's address.
fn asks_for(want: &SocksWant, name: &[u8], to: Option<u16>) -> bool {
    match want {
        SocksWant::Connect { host, port } => host.as_slice() == name && to == Some(*port),
        SocksWant::Resolve { host } => host.as_slice() == name && to.is_none(),
    }
}

#[test]
fn a_greeting_is_answered_and_a_request_is_wanted(rt: HostRuntime) -> Result<(), Fail> {
    let greeting_answer = answer_to(rt.alloc(), b"\x05\x01\x00").ok_or("an answer")?;
    assert_eq!(rt; said(greeting_answer), Some([5, 0]));
    let greeting_answer = answer_to(rt.alloc(), b"\x05\x02\x00\x01").ok_or("an answer")?;
    assert_eq!(rt; said(greeting_answer), Some([5, 0]));
    let wants: [(&[u8], &[u8], Option<u16>); 5] = [
        (
            b"\x05\x01\x00\x05\x01\x00\x03\x09echo.test\x00\x07",
            b"echo.test",
            Some(7),
        ),
        (
            b"\x05\x02\x01\x00\x05\x01\xff\x01\x7f\x00\x00\x01\x1f\x90",
            b"127.0.0.1",
            Some(8080),
        ),
        (
            b"\x05\x01\x00\x05\x01\x00\x01\xff\x0a\x63\x64\xff\xff",
            b"255.10.99.100",
            Some(65535),
        ),
        (
            b"\x05\x01\x00\x05\xf0\x00\x03\x09echo.test\x00\x00",
            b"echo.test",
            None,
        ),
        (
            b"\x05\x01\x00\x05\xf0\x00\x01\x01\x02\x03\x04\x00\x50",
            b"1.2.3.4",
            None,
        ),
    ];
    for (bytes, name, to) in wants {
        let answer = answer_to(rt.alloc(), bytes).ok_or("an answer")?;
        let want = wanted(answer).ok_or("a request")?;
        assert!(rt; asks_for(&want, name, to));
    }
    Ok(())
}

#[test]
fn refusals_come_at_their_byte_and_are_told(rt: HostRuntime) -> Result<(), Fail> {
    let refusals: [(&[u8], SocksFault, &[u8]); 12] = [
        (b"\x04", SocksFault::Version(4), b""),
        (b"\x05\x01\x00G", SocksFault::Version(b'G'), b""),
        (b"\x05\x00", SocksFault::NoMethod, b"\x05\xff"),
        (b"\x05\x02\x01\x02", SocksFault::NoMethod, b"\x05\xff"),
        (
            b"\x05\x01\x00\x05\x02",
            SocksFault::Command(2),
            b"\x05\x07\x00\x01\x00\x00\x00\x00\x00\x00",
        ),
        (
            b"\x05\x01\x00\x05\x03",
            SocksFault::Command(3),
            b"\x05\x07\x00\x01\x00\x00\x00\x00\x00\x00",
        ),
        (
            b"\x05\x01\x00\x05\x01\x00\x04",
            SocksFault::Kind(4),
            b"\x05\x08\x00\x01\x00\x00\x00\x00\x00\x00",
        ),
        (
            b"\x05\x01\x00\x05\xf0\x00\x00",
            SocksFault::Kind(0),
            b"\x05\x08\x00\x01\x00\x00\x00\x00\x00\x00",
        ),
        (
            b"\x05\x01\x00\x05\x01\x00\x03\x00",
            SocksFault::Host,
            b"\x05\x01\x00\x01\x00\x00\x00\x00\x00\x00",
        ),
        (
            b"\x05\x01\x00\x05\xf0\x00\x03\x09ech\x00",
            SocksFault::Host,
            b"\x05\x01\x00\x01\x00\x00\x00\x00\x00\x00",
        ),
        (
            b"\x05\x01\x00\x05\x01\x00\x03\x01a\x00\x00",
            SocksFault::Host,
            b"\x05\x01\x00\x01\x00\x00\x00\x00\x00\x00",
        ),
        (
            b"\x05\x01\x00\x05\x01\x00\x01\x7f\x00\x00\x01\x00\x00",
            SocksFault::Host,
            b"\x05\x01\x00\x01\x00\x00\x00\x00\x00\x00",
        ),
    ];
    for (bytes, want, refusal_bytes) in refusals {
        let answer = answer_to(rt.alloc(), bytes).ok_or("an answer")?;
        assert_eq!(rt; fault(answer), Some(want));
        assert_eq!(rt; want.refusal().as_slice(), refusal_bytes);
    }
    Ok(())
}

#[test]
fn the_longest_messages_are_taken(rt: HostRuntime) -> Result<(), Fail> {
    let mut bytes = Vec::new(rt.alloc());
    bytes.extend_from_slice(b"\x05\xff")?;
    bytes.extend_from_slice(&[2; 254])?;
    bytes.extend_from_slice(b"\x00\x05\x01\x00\x03\xff")?;
    bytes.extend_from_slice(&[b'a'; 255])?;
    bytes.extend_from_slice(b"\x00\x50")?;
    assert_eq!(rt; bytes.len(), 519);
    let answer = answer_to(rt.alloc(), bytes.as_slice()).ok_or("an answer")?;
    let want = wanted(answer).ok_or("a request")?;
    assert!(rt; asks_for(&want, &[b'a'; 255], Some(80)));
    Ok(())
}

#[test]
fn replies_have_their_bytes(rt: HostRuntime) -> Result<(), Fail> {
    assert_eq!(rt;
        &reply_bytes(0, [127, 0, 0, 1], 0)[..],
        b"\x05\x00\x00\x01\x7f\x00\x00\x01\x00\x00".as_slice()
    );
    assert_eq!(rt;
        &reply_bytes(4, [0; 4], 0x1f90)[..],
        b"\x05\x04\x00\x01\x00\x00\x00\x00\x1f\x90".as_slice()
    );
    Ok(())
}
