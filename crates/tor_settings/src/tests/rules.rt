use crate::{SettingsFault, read_settings};
use std::alloc::Global;
use std::process::Abort;
use std::test::Fail;

fn breaks(rt: &impl Abort, alloc: Global, text: &[u8], rule: u8) {
    match read_settings(alloc, text) {
        Err(SettingsFault::Rule(number)) => assert_eq!(rt; number, rule),
        _ => panic!(rt; "no rule is broken, but {rule} should be"),
    }
}

#[test]
fn length_document_and_listen(rt: HostRuntime) -> Result<(), Fail> {
    let comment = vec![in rt.alloc(); b'#'; 65_537]?;
    breaks(&rt, rt.alloc(), &comment, 1);
    breaks(&rt, rt.alloc(), &comment[..65_536], 3);
    breaks(&rt, rt.alloc(), b"listen", 2);
    breaks(&rt, rt.alloc(), b"listen = \"127.0.0.1:9001\"\xff", 2);
    breaks(&rt, rt.alloc(), b"", 3);
    breaks(&rt, rt.alloc(), b"workers = 0", 3);
    breaks(&rt, rt.alloc(), b"worker = 4", 3);
    breaks(&rt, rt.alloc(), b"listen = 1\nworker = 4", 4);
    breaks(&rt, rt.alloc(), b"listen = 1\nworkers = 0", 5);
    Ok(())
}

#[test]
fn keys_types_and_ranges(rt: HostRuntime) -> Result<(), Fail> {
    for (lines, rule) in [
        ("host = \"echo.test\"", 4),
        ("allow = [{ name = \"echo.test\" }]", 4),
        ("workers = \"4\"", 5),
        ("workers = 4.0", 5),
        ("allow = {}", 5),
        ("allow = [1]", 5),
        ("allow = [{ port = \"7\" }]", 5),
        ("accept_slots = 0", 6),
        ("accept_slots = 65", 6),
        ("dial_slots = 64", 6),
        ("edge_slots = 257", 6),
        ("workers = 0", 6),
        ("workers = -1", 6),
        ("workers = 65", 6),
        ("accepts = 2147483648", 6),
        ("circuit_window = 99", 6),
        ("circuit_window = 1001", 6),
        ("sendme_least = 2", 6),
        ("allow = [{ port = 0 }]", 6),
        ("allow = [{ port = 65536 }]", 6),
    ] {
        let text = format!(in rt.alloc(); "listen = \"nowhere\"\n{lines}")?;
        breaks(&rt, rt.alloc(), text.as_bytes(), rule);
    }
    Ok(())
}

#[test]
fn slots_and_lines(rt: HostRuntime) -> Result<(), Fail> {
    for (lines, rule) in [
        ("accept_slots = 49", 7),
        ("accept_slots = 48", 11),
        ("accept_slots = 1\ndial_slots = 63", 11),
        ("allow = [{ host = \"a\", port = 1 }]", 9),
        ("allow = [{ host = \"a\", to = \"1.2.3.4:5\" }]", 9),
        ("allow = [{ port = 1, to = \"1.2.3.4:5\" }]", 9),
        ("allow = [{ host = \"\", port = 1, to = \"x\" }]", 9),
        (
            "allow = [{ host = \"a\\u0000b\", port = 1, to = \"x\" }]",
            9,
        ),
        (
            "allow = [{ host = \"aB\", port = 1, to = \"x\" }, { host = \"Ab\", port = 1, to = \"y\" }]",
            10,
        ),
        (
            "allow = [{ host = \"a\", port = 1, to = \"x\" }, { host = \"a\", port = 2, to = \"x\" }]",
            11,
        ),
    ] {
        let text = format!(in rt.alloc(); "listen = \"nowhere\"\n{lines}")?;
        breaks(&rt, rt.alloc(), text.as_bytes(), rule);
    }
    Ok(())
}

#[test]
fn a_thousand_lines_are_not_too_many(rt: HostRuntime) -> Result<(), Fail> {
    for (count, rule) in [(1000, 9), (1001, 8)] {
        let mut text = Vec::from_slice(rt.alloc(), b"listen = \"nowhere\"\nallow = [")?;
        for _ in 0..count {
            text.extend_from_slice(b"{},")?;
        }
        text.push(b']')?;
        breaks(&rt, rt.alloc(), &text, rule);
    }
    Ok(())
}

#[test]
fn addresses(rt: HostRuntime) -> Result<(), Fail> {
    for listen in [
        "",
        "127.0.0.1",
        "127.0.0.1:",
        "127.0.0.1:0",
        "127.0.0.1:65536",
        "127.0.0.1:000001",
        "127.0.0.1:+1",
        "127.0.0:1",
        "127.0.0.0.1:1",
        "256.0.0.1:1",
        "0127.0.0.1:1",
        "a.0.0.1:1",
        "127.0.0.1:1:1",
        "[::1]:1",
        " 127.0.0.1:1",
    ] {
        let text = format!(in rt.alloc(); "listen = \"{listen}\"")?;
        breaks(&rt, rt.alloc(), text.as_bytes(), 11);
    }
    Ok(())
}
