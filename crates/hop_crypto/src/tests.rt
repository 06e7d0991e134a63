ghost use Rattle.std.specs.Prelude.{◌≡◌, ◌+◌, ◌^◌, ◌<◌};
ghost use Rattle.hop_crypto.specs.Ciphers.{direction_of, position_of};

use crate::{Cipher, Done, DoneParts, Job, Opener, Sealer, work};
use aes_ctr::Stream;
use cell_codec::List;
use kdf_tor::LayerKeys;
use relay_cell::Opened;
use run_digest::Running;
use std::alloc::Global;
use std::test::Fail;
use tr_io::names::{CircNo, ClaimNote, Dir};

const KEYS: LayerKeys = LayerKeys {
    df: [1; 20],
    db: [2; 20],
    kf: [3; 16],
    kb: [4; 16],
};

const NOTE: ClaimNote = ClaimNote {
    switch: 0,
    claim: 5,
    worker: 1,
    circ: CircNo(3),
    dir: Dir::Forth,
    first: 0,
    count: 3,
};

fn sealed(stream: &mut Stream, mut body: [u8; 509]) -> [u8; 509]
    requires { stream.old.position < 2 ^ 100 }
    ensures { stream.new.position ≡ stream.old.position + 509 }
{
    stream.apply(&mut body);
    body
}

// A client seals a body for this hop, one for another hop and one more for this hop.
#[test]
fn job_forth(rt: HostRuntime) -> Result<(), Fail> {
    let mut digest = Running::seeded(&KEYS.df);
    let mut first = [0; 509];
    let first_digest = digest.look_with(&first);
    first[5..9].copy_from_slice(&first_digest[..4]);
    digest.absorb(&first);
    let foreign_body = [9; 509];
    let mut last = [0; 509];
    let last_digest = digest.look_with(&last);
    last[5..9].copy_from_slice(&last_digest[..4]);

    let mut stream = Stream::of(&KEYS.kf);
    let mut bodies = List::new(rt.alloc());
    bodies.push(sealed(&mut stream, first))?;
    bodies.push(sealed(&mut stream, foreign_body))?;
    bodies.push(sealed(&mut stream, last))?;
    let opener = Cipher::Forth(Opener::of(&KEYS));
    let job = Job::of(rt.alloc(), NOTE, opener.copy(), bodies);
    let done = work(job.ok().ok_or("no memory")?);
    assert_eq!(rt; done.note(), NOTE);

    let parts = done.apart();
    let expected = [
        Opened {
            body: first,
            recognised: Some(first_digest),
        },
        Opened {
            body: foreign_body,
            recognised: None,
        },
        Opened {
            body: last,
            recognised: Some(last_digest),
        },
    ];
    assert_eq!(rt; parts.output.as_slice(), expected.as_slice());
    assert!(rt; parts.start.same(&opener));
    assert!(rt; !parts.end.same(&opener));
    Ok(())
}

#[test]
fn job_back(rt: HostRuntime) -> Result<(), Fail> {
    let mut note = NOTE;
    note.dir = Dir::Back;
    note.count = 1;
    let mut bodies = List::new(rt.alloc());
    bodies.push([6; 509])?;
    let job = Job::of(rt.alloc(), note, Cipher::Back(Sealer::of(&KEYS)), bodies);
    let job = job.ok().ok_or("no memory")?;
    assert_eq!(rt; job.note(), note);

    let parts = work(job).apart();
    let expected = [Opened {
        body: sealed(&mut Stream::of(&KEYS.kb), [6; 509]),
        recognised: None,
    }];
    assert_eq!(rt; parts.output.as_slice(), expected.as_slice());
    assert_eq!(rt; parts.input.as_slice(), [[6; 509]].as_slice());
    Ok(())
}

// A job of one body, done.
fn one_done(alloc: Global, dir: Dir, cipher: Cipher) -> Result<Done, Fail>
    requires direction { dir ≡ direction_of cipher }
    requires position { position_of cipher ≡ 0 }
{
    let mut note = NOTE;
    note.dir = dir;
    note.count = 1;
    let mut bodies = List::new(alloc);
    bodies.push([6; 509])?;
    let job = Job::of(alloc, note, cipher, bodies);
    Ok(work(job.ok().ok_or("no memory")?))
}

// The keystream of the second and the third body.
fn keystream_behind_one(key: &[u8; 16]) -> ([u8; 509], [u8; 509]) {
    let mut stream = Stream::of(key);
    let _first = sealed(&mut stream, [0; 509]);
    let second = sealed(&mut stream, [0; 509]);
    (second, sealed(&mut stream, [0; 509]))
}

#[test]
fn opener_goes_on_with_what_is_made_ahead(rt: HostRuntime) -> Result<(), Fail> {
    let done = one_done(rt.alloc(), Dir::Forth, Cipher::Forth(Opener::of(&KEYS)))?;
    let (second, third) = keystream_behind_one(&KEYS.kf);
    assert_eq!(rt; done.ahead().len(), 1024);
    assert_eq!(rt; &done.ahead()[..509], second.as_slice());
    assert_eq!(rt; &done.ahead()[509..1018], third.as_slice());

    let DoneParts { end, .. } = done.apart();
    let Cipher::Forth(mut opener) = end else {
        return Err("the cipher has turned".into());
    };
    let mut other = Opener::of(&KEYS);
    other.take_off(&mut [6; 509]);
    assert!(rt; opener.same(&other));
    let mut body = [0; 509];
    assert_eq!(rt; opener.take_off(&mut body), None);
    assert_eq!(rt; body, second);
    let mut body = [0; 509];
    assert_eq!(rt; opener.take_off(&mut body), None);
    assert_eq!(rt; body, third);
    Ok(())
}

#[test]
fn sealer_goes_on_with_what_is_made_ahead(rt: HostRuntime) -> Result<(), Fail> {
    let done = one_done(rt.alloc(), Dir::Back, Cipher::Back(Sealer::of(&KEYS)))?;
    let (second, third) = keystream_behind_one(&KEYS.kb);
    assert_eq!(rt; done.ahead().len(), 1024);
    assert_eq!(rt; &done.ahead()[..509], second.as_slice());
    assert_eq!(rt; &done.ahead()[509..1018], third.as_slice());

    let DoneParts { end, .. } = done.apart();
    let Cipher::Back(mut sealer) = end else {
        return Err("the cipher has turned".into());
    };
    let mut other = Sealer::of(&KEYS);
    other.put_on(&mut [6; 509]);
    assert!(rt; sealer.same(&other));
    let mut body = [0; 509];
    sealer.put_on(&mut body);
    assert_eq!(rt; body, second);
    let mut body = [0; 509];
    sealer.put_on(&mut body);
    assert_eq!(rt; body, third);
    Ok(())
}
