//! Payloads by tor-spec, with their bytes written out.

use super::*;
use std::test::Fail;

#[test]
fn reads_begins(rt: HostRuntime) -> Result<(), Fail> {
    let begins: [(&[u8], &[u8], u16); 4] = [
        (b"echo.test:7\0", b"echo.test", 7),
        (b"no.test:1\0\0\0\0\x01more", b"no.test", 1),
        (b"echo.test:00007\0", b"echo.test", 7),
        (b"a:b:65535\0", b"a:b", 65535),
    ];
    for (payload, host, port) in begins {
        let begin = read_begin(payload).ok_or("a BEGIN")?;
        assert_eq!(rt; begin.host, host);
        assert_eq!(rt; begin.port, port);
    }
    let no_begins: [&[u8]; 10] = [
        b"",
        b"echo.test:7",
        b"echo.test\0",
        b":7\0",
        b"echo.test:\0",
        b"echo.test:0\0",
        b"echo.test:65536\0",
        b"echo.test:000007\0",
        b"echo.test:+7\0",
        b"\0echo.test:7\0",
    ];
    for payload in no_begins {
        assert!(rt; read_begin(payload).is_none());
    }
    Ok(())
}

#[test]
fn reads_extends(rt: HostRuntime) -> Result<(), Fail> {
    // The first IPv4 address among specifiers of the types 2, 9, 0, 0.
    let extend2 =
        b"\x04\x02\x14aaaaaaaaaaaaaaaaaaaa\x09\x00\x00\x06\x7f\0\0\x01\x23\x29\x00\x06\x7f\0\0\x02\x23\x29\xff\x01\0\x03XYZ\0";
    let extend = read_extend2(extend2).ok_or("an EXTEND2")?;
    assert_eq!(rt; extend.to, Some(([127, 0, 0, 1], 9001)));
    assert_eq!(rt; extend.htype, 0xff01);
    assert_eq!(rt; extend.hdata, b"XYZ".as_slice());
    let no_extends: [&[u8]; 5] = [
        b"",
        b"\x01\x00\x05\x7f\0\0\x01\x23\xff\x01\0\0",
        b"\x02\x00\x06\x7f\0\0\x01\x23\x29\xff\x01\0\0",
        b"\x01\x00\x06\x7f\0\0\x01\x23\x29\xff\x01\0",
        b"\x01\x00\x06\x7f\0\0\x01\x23\x29\xff\x01\0\x04XYZ",
    ];
    for payload in no_extends {
        assert!(rt; read_extend2(payload).is_none());
    }
    Ok(())
}

#[test]
fn reads_short_payloads(rt: HostRuntime) -> Result<(), Fail> {
    assert_eq!(rt;
        read_resolve(b"echo.test\0\0").ok_or("a RESOLVE")?,
        b"echo.test".as_slice()
    );
    assert!(rt; read_resolve(b"\0").is_none() && read_resolve(b"echo.test").is_none());

    assert_eq!(rt;
        read_handshake_reply(b"\0\x02YZmore").ok_or("an answer")?,
        b"YZ".as_slice()
    );
    assert!(rt;
        read_handshake_reply(b"\0\x02Y").is_none() && read_handshake_reply(b"\0").is_none()
    );
    assert_eq!(rt;
        read_connected(b"\x7f\0\0\x01\0\0\0\x3cmore"),
        Some(([127, 0, 0, 1], 60))
    );
    assert!(rt; read_connected(b"\x7f\0\0\x01\0\0\0").is_none());
    assert_eq!(rt;
        read_proof(b"\x01\0\x14aaaaaaaaaaaaaaaaaaaamore"),
        Some([b'a'; 20])
    );
    assert!(rt;
        read_proof(b"\x01\0\x14aaaaaaaaaaaaaaaaaaa").is_none() && read_proof(b"").is_none()
    );
    assert!(rt; read_proof(b"\x00\0\x14aaaaaaaaaaaaaaaaaaaa").is_none());
    assert_eq!(rt; end_reason(b""), stream_end::MISC);
    assert_eq!(rt; end_reason(b"\x06"), stream_end::DONE);
    Ok(())
}

#[test]
fn reads_resolveds(rt: HostRuntime) -> Result<(), Fail> {
    let resolveds: [(&[u8], Option<[u8; 4]>); 5] = [
        (b"\x04\x04\x7f\0\0\x01\0\0\0\x3c", Some([127, 0, 0, 1])),
        (b"\xf1\0\0\0\0\x3c", None),
        // A name, and two addresses behind it.
        (
            b"\x00\x03a.b\0\0\0\x01\x04\x04\x01\x02\x03\x04\0\0\0\x01\x04\x04\x05\x06\x07\x08\0\0\0\x01",
            Some([1, 2, 3, 4]),
        ),
        (b"\x06\x10aaaaaaaaaaaaaaaa\0\0\0\x01", None),
        (b"\x06\x01a\0\0\0\x01", None),
    ];
    for (payload, ip) in resolveds {
        assert_eq!(rt; read_resolved(payload).ok_or("a RESOLVED")?, ip);
    }
    let no_resolveds: [&[u8]; 6] = [
        b"",
        b"\x04",
        b"\x04\x04\x7f\0\0\x01\0\0\0",
        b"\x04\x04\x7f\0\0\x01\0\0\0\x3c\x04",
        b"\x04\x05\x7f\0\0\x01\x01\0\0\0\x3c",
        b"\x04\x04\x7f\0\0\x01\0\0\0\x3c\x04\x03\x7f\0\0\0\0\0\x3c",
    ];
    for payload in no_resolveds {
        assert!(rt; read_resolved(payload).is_none());
    }
    Ok(())
}

#[test]
fn writes_bodies(rt: HostRuntime) -> Result<(), Fail> {
    let mut begin = begin_body(1, b"echo.test", 65535);
    put_digest(&mut begin, *b"HASH");
    let bodies: [([u8; 509], &[u8]); 12] = [
        (begin, b"\x01\0\0\0\x01HASH\0\x10echo.test:65535\0"),
        (data_body(7, b"bytes"), b"\x02\0\0\0\x07\0\0\0\0\0\x05bytes"),
        (
            end_body(7, stream_end::EXIT_POLICY),
            b"\x03\0\0\0\x07\0\0\0\0\0\x01\x04",
        ),
        (
            connected_body(7, [127, 0, 0, 1], 60),
            b"\x04\0\0\0\x07\0\0\0\0\0\x08\x7f\0\0\x01\0\0\0\x3c",
        ),
        (
            circuit_sendme_body(&[b'a'; 20]),
            b"\x05\0\0\0\0\0\0\0\0\0\x17\x01\0\x14aaaaaaaaaaaaaaaaaaaa",
        ),
        (stream_sendme_body(7), b"\x05\0\0\0\x07\0\0\0\0\0\0"),
        (truncate_body(3), b"\x08\0\0\0\0\0\0\0\0\0\x01\x03"),
        (truncated_body(3), b"\x09\0\0\0\0\0\0\0\0\0\x01\x03"),
        (
            extend2_body(([127, 0, 0, 1], 9001), 0xff01, b"XYZ"),
            b"\x0e\0\0\0\0\0\0\0\0\0\x10\x01\x00\x06\x7f\0\0\x01\x23\x29\xff\x01\0\x03XYZ",
        ),
        (extended2_body(b"YZ"), b"\x0f\0\0\0\0\0\0\0\0\0\x04\0\x02YZ"),
        (
            resolve_body(7, b"no.test"),
            b"\x0b\0\0\0\x07\0\0\0\0\0\x08no.test\0",
        ),
        (
            resolved_body(7, resolved_type::IPV4, b"\x7f\0\0\x01", 60),
            b"\x0c\0\0\0\x07\0\0\0\0\0\x0a\x04\x04\x7f\0\0\x01\0\0\0\x3c",
        ),
    ];
    for (body, front) in bodies {
        let padding = body[..].strip_prefix(front).ok_or("the front")?;
        assert!(rt; padding.iter().all(|byte| *byte == 0));
        match read_head(&body) {
            Some(head) => {
                assert_eq!(rt; usize::from(head.length) + 11, front.len());
                assert_eq!(rt; Some(payload_of(&body)), front.get(11..));
            }
            None => assert!(rt; false, "no head"),
        }
    }
    Ok(())
}

#[test]
fn a_length_past_498_has_no_head(rt: HostRuntime) -> Result<(), Fail> {
    let mut long = data_body(7, &[1; 498]);
    let opened_body = Opened {
        body: long,
        recognised: None,
    };
    assert_eq!(rt; read_head(&opened_body.body).ok_or("a head")?.length, 498);
    long[10] = 0xf3;
    assert!(rt; read_head(&long).is_none());
    Ok(())
}

#[test]
fn pads_behind_four_zero_bytes(rt: HostRuntime) -> Result<(), Fail> {
    let mut from = [0xee; 509];
    from[16..32].copy_from_slice(
        b"\x58\xe2\xfc\xce\xfa\x7e\x30\x61\x36\x7f\x1d\x57\xa4\xe7\x45\x5a",
    );
    let mut end = end_body(7, stream_end::EXIT_POLICY);
    assert_eq!(rt; read_head(&end).ok_or("a head")?.length, 1);
    put_padding(&mut end, &from);
    assert_eq!(rt;
        &end[..16],
        b"\x03\0\0\0\x07\0\0\0\0\0\x01\x04\0\0\0\0".as_slice()
    );
    assert_eq!(rt; &end[16..], &from[16..]);

    // Up to four zero bytes, as far as there is room.
    for (length, zeros) in [(493usize, 4), (494, 4), (496, 2), (498, 0)] {
        let mut body = data_body(7, &[1; 498][..length]);
        assert!(rt; read_head(&body).is_some());
        put_padding(&mut body, &from);
        assert!(rt; body[11..11 + length].iter().all(|byte| *byte == 1));
        let tail = &body[11 + length..];
        assert!(rt; zeros <= tail.len());
        let (gap, padding) = tail.split_at(zeros);
        assert!(rt; gap.iter().all(|byte| *byte == 0));
        assert!(rt; padding.iter().all(|byte| *byte == 0xee));
    }
    Ok(())
}
