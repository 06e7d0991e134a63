ghost use Rattle.std.specs.Prelude.{◌≡◌, ◌<◌, length, IfOk};
ghost use Rattle.std.specs.List.{All};
ghost use Rattle.onion_client.specs.Hops.{HasKeystream};

use crate::{Layer, Layers};
use hop_crypto::{Opener, Sealer};
use kdf_tor::LayerKeys;
use relay_cell::{data_body, put_digest, read_head};
use run_digest::Running;
use std::alloc::{AllocError, Global};
use std::test::Fail;

fn keys(n: u8) -> LayerKeys {
    LayerKeys {
        df: [n; 20],
        db: [n ^ 16; 20],
        kf: [n ^ 32; 16],
        kb: [n ^ 64; 16],
    }
}

fn three_hops(alloc: Global) -> Result<Layers, AllocError>
    ensures some { IfOk result (λ layers. 0 < length layers.items) }
    ensures keystream { IfOk result (λ layers. All HasKeystream layers.items) }
{
    let mut layers = Layers::new(alloc);
    layers.join(&keys(1))?;
    layers.join(&keys(2))?;
    layers.join(&keys(3))?;
    Ok(layers)
}

// What the client seals comes out at the third relay, and is not recognised before.
#[test]
fn a_body_goes_to_the_last_hop(rt: HostRuntime) -> Result<(), Fail> {
    let mut layers = three_hops(rt.alloc())?;
    assert_eq!(rt; layers.len(), 3);
    let mut body = data_body(7, b"to the last hop");
    let digest = layers.seal(&mut body);
    assert!(rt; Opener::of(&keys(1)).take_off(&mut body).is_none());
    assert!(rt; Opener::of(&keys(2)).take_off(&mut body).is_none());
    let seen_digest = Opener::of(&keys(3))
        .take_off(&mut body)
        .ok_or("unrecognised")?;
    assert_eq!(rt; seen_digest, digest);
    assert!(rt; read_head(&body).is_some());
    assert!(rt; body[11..].starts_with(b"to the last hop"));
    Ok(())
}

// A body that the second relay sealed is the second hop's.
#[test]
fn a_body_comes_from_the_hop_that_sealed_it(rt: HostRuntime) -> Result<(), Fail> {
    let mut body = data_body(7, b"from the second hop");
    let digest = Running::seeded(&keys(2).db).look_with(&body);
    let [a, b, c, d, ..] = digest;
    put_digest(&mut body, [a, b, c, d]);
    Sealer::of(&keys(2)).put_on(&mut body);
    Sealer::of(&keys(1)).put_on(&mut body);
    let mut layers = three_hops(rt.alloc())?;
    let (place, seen_digest) = layers.take_off(&mut body).ok_or("unrecognised")?;
    assert_eq!(rt; place, 1);
    assert_eq!(rt; seen_digest, digest);
    assert!(rt; body[11..].starts_with(b"from the second hop"));
    let mut stranger = [9; 509];
    let mut fresh = three_hops(rt.alloc())?;
    assert!(rt; fresh.take_off(&mut stranger).is_none());
    Ok(())
}

// For one hop a `Layer` seals as `Layers` do.
#[test]
fn one_layer_seals_as_a_path_of_one_hop(rt: HostRuntime) -> Result<(), Fail> {
    let mut layers = Layers::new(rt.alloc());
    layers.reserve()?;
    layers.join(&keys(5))?;
    let mut one = data_body(1, b"x");
    let mut other = data_body(1, b"x");
    let _digest = layers.seal(&mut one);
    Layer::of(&keys(5)).seal(&mut other);
    assert!(rt; one == other);
    Ok(())
}
