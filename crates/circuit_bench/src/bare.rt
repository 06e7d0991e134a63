//! The cipher and the running digest alone.

ghost use Rattle.std.specs.Prelude.{◌≡◌, ◌*◌};

use crate::cells::{KEYS, Report, first_of};
use aes_ctr::Stream;
use run_digest::Running;

/// Applies the keystream to the same body `count` times.
pub fn layers(count: u32) -> Report {
    let mut stream = Stream::of(&KEYS.kf);
    let mut body = [0; 509];
    for _round in 0..count {
        stream.apply(&mut body);
    }
    Report {
        cells: u64::from(count),
        last_bytes: first_of(&body),
    }
}

/// Lets the same body go by a running digest, which is asked each time.
pub fn digests(count: u32) -> Report {
    let body = [7; 509];
    let mut running_digest = Running::seeded(&KEYS.db);
    let mut last_bytes = [0; 20];
    for _round in 0..count {
        running_digest.absorb(&body);
        last_bytes = running_digest.digest();
    }
    Report {
        cells: u64::from(count),
        last_bytes,
    }
}

/// Both, one behind the other.
pub fn layers_and_digests(count: u32) -> Report {
    let mut stream = Stream::of(&KEYS.kf);
    let mut running_digest = Running::seeded(&KEYS.df);
    let mut body = [0; 509];
    let mut last_bytes = [0; 20];
    for _round in 0..count {
        stream.apply(&mut body);
        running_digest.absorb(&body);
        last_bytes = running_digest.digest();
    }
    Report {
        cells: u64::from(count),
        last_bytes,
    }
}
