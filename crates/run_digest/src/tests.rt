//! Expected digests were computed with Python's hashlib.

use crate::Running;

#[test]
fn three_bodies_go_by(rt: HostRuntime) {
    let mut running = Running::seeded(&[0xa5; 20]);
    let table = [
        (
            1,
            [
                0x6f, 0xe7, 0x35, 0xc0, 0x82, 0xf7, 0x0c, 0xc6, 0x97, 0x15, 0x30, 0x2c, 0xec, 0x47,
                0x59, 0x4f, 0x9f, 0xf5, 0x72, 0x08,
            ],
        ),
        (
            2,
            [
                0x56, 0xe6, 0x32, 0x61, 0x58, 0x27, 0x53, 0x1d, 0xf1, 0x89, 0x23, 0xd1, 0x09, 0xf2,
                0x78, 0xaa, 0x01, 0x4a, 0x1a, 0x1d,
            ],
        ),
        (
            3,
            [
                0x80, 0x41, 0x1a, 0x46, 0x48, 0x97, 0x92, 0x72, 0x8c, 0x19, 0xf1, 0xdd, 0x63, 0xc9,
                0xf5, 0x14, 0x61, 0x81, 0x45, 0x8a,
            ],
        ),
    ];
    for (byte, digest) in table {
        let body = [byte; 509];
        assert_eq!(rt; running.look_with(&body), digest);
        assert_eq!(rt; running.followed_by(&body).digest(), digest);
        running.absorb(&body);
        assert_eq!(rt; running.digest(), digest);
    }

    let copy = running.copy();
    assert!(rt; running.same(&copy));
    running.absorb(&[4; 509]);
    assert!(rt; !running.same(&copy));
}
