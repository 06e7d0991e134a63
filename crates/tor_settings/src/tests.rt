use crate::{Settings, SettingsFault, read_settings};
use std::process::Abort;
use tr_io::names::Dest;

mod rules;

// The text of examples/relay.toml, which has each key with its default: .ci/check_example compares the two.
const EXAMPLE: &[u8] =
    b"# The settings of a relay, in TOML. Each key but listen may be left out: then it has the value that it has here.

# Where the relay listens for links: an IPv4 address and a port. It has no default.
listen = \"127.0.0.1:9001\"

# How many links that peers open are served at a time: 1 to 64.
accept_slots = 16

# How many links that the relay opens itself are served at a time: 0 to 63, and with accept_slots at most 64.
dial_slots = 16

# How many connections of streams are served at a time: 0 to 256.
edge_slots = 32

# How many crypto workers there are: 1 to 64.
workers = 4

# How many links each accepting slot serves before the relay ends: 0 to 2147483647. With 0 it doesn't end by itself.
accepts = 0

# How many DATA cells a circuit may package before its first SENDME: 100 to 1000.
circuit_window = 1000

# The least version of a circuit's SENDME that is accepted: 0 or 1.
sendme_least = 1

# The names that a stream may reach, and where each leads: at most 1000, and none by default. A line is written so:
# [[allow]]
# host = \"echo.test\"
# port = 7
# to = \"127.0.0.1:7\"
";

const LOCAL: Dest = Dest {
    ip: [127, 0, 0, 1],
    port: 9001,
};

fn has_defaults(rt: &impl Abort, settings: &Settings) {
    assert_eq!(rt; settings.listen, LOCAL);
    assert_eq!(rt; settings.accept_slots, 16);
    assert_eq!(rt; settings.dial_slots, 16);
    assert_eq!(rt; settings.edge_slots, 32);
    assert_eq!(rt; settings.workers, 4);
    assert_eq!(rt; settings.accepts, 0);
    assert_eq!(rt; settings.circuit_window, 1000);
    assert_eq!(rt; settings.sendme_least, 1);
    assert!(rt; settings.allow.is_empty());
}

#[test]
fn listen_alone_gives_the_defaults(rt: HostRuntime) {
    match read_settings(rt.alloc(), b"listen = \"127.0.0.1:9001\"") {
        Ok(settings) => has_defaults(&rt, &settings),
        Err(_) => panic!(&rt; "refused"),
    }
}

#[test]
fn the_example_has_the_defaults(rt: HostRuntime) {
    match read_settings(rt.alloc(), EXAMPLE) {
        Ok(settings) => has_defaults(&rt, &settings),
        Err(_) => panic!(&rt; "refused"),
    }
}

#[test]
fn lines_are_read_in_their_order(rt: HostRuntime) {
    let text = b"listen = \"001.002.003.004:00080\"\nworkers = 64\n
        [[allow]]\nhost = \"echo.test\"\nport = 7\nto = \"127.0.0.1:7\"\n
        [[allow]]\nhost = \"Echo.test\"\nport = 8\nto = \"255.0.0.1:65535\"\n";
    let Ok(settings) = read_settings(rt.alloc(), text) else {
        panic!(&rt; "refused");
    };
    let listen = Dest {
        ip: [1, 2, 3, 4],
        port: 80,
    };
    assert_eq!(rt; settings.listen, listen);
    assert_eq!(rt; settings.workers, 64);
    let [first, second] = settings.allow.as_slice() else {
        panic!(&rt; "not two lines");
    };
    assert_eq!(rt; first.host.as_slice(), b"echo.test".as_slice());
    assert_eq!(rt; first.port, 7);
    assert_eq!(rt; first.to.port, 7);
    assert_eq!(rt; second.host.as_slice(), b"Echo.test".as_slice());
    assert_eq!(rt; second.port, 8);
    assert_eq!(rt; second.to.port, 65535);
}
