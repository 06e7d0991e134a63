// The layers of a path of several hops.

ghost use Rattle.std.specs.Prelude.{◌≡◌, ◌+◌, ◌<◌, ℕ, List, [], ◌∷◌, ◌++◌, map, length, OnOk, OnErr, IsOk, IfSome, Option, Some, None, option_map};
ghost use Rattle.std.specs.List.{All};
ghost use Rattle.circuit_model.specs.PathLayers.{PathHop, recognised_as, after_coming};
ghost use Rattle.onion_client.specs.Hops.{HasKeystream, hop_of, stepped_forth, with_layers};
ghost use Rattle.onion_client.specs.LayerState.{fresh_hop};
ghost use Rattle.onion_client.specs.Making.{digest_on, sealed_on, sent_on};
ghost use Rattle.onion_client.specs.Taking.{digest_from};

use crate::hop::Hop;
use kdf_tor::LayerKeys;
use std::alloc::{AllocError, Global};
use std::marker::Model;

/// The layers that a client shares with the hops of a path, the first hop first (tor-spec, "Routing relay
/// cells").
///
/// Contracts see each hop's two layers and how many spare places there are; `hop_of` gives the layers for a hop
/// with all bodies that went each way.
#[derive(Drop)]
pub struct Layers {
    hops: Vec<Hop>,
}

impl Model for Layers {
    ghost use Rattle.std.specs.Prelude.{◌-◌, vec_len, vec_capacity};
    ghost use Rattle.cell_codec.specs.Roomy.{Roomy};
    ghost use Rattle.onion_client.specs.declared.hop.Hop.{Hop};

    ghost Value = { Roomy Hop };

    ghost view = { λ h. record { items = h.hops.items; spare = vec_capacity h.hops - vec_len h.hops } };
}

impl Layers {
    /// No hop.
    pub fn new(alloc: Global) -> Layers
        ensures items { result.items ≡ [] }
        ensures keystream { All HasKeystream result.items }
    {
        Layers {
            hops: Vec::new(alloc),
        }
    }

    /// How many hops there are.
    pub fn len(&self) -> usize
        ensures { result ≡ length self.now.items }
    {
        self.hops.len()
    }

    /// Takes room for one more hop.
    pub fn reserve(&mut self) -> Result<(), AllocError>
        ensures items { self.new.items ≡ self.old.items }
        ensures ok { OnOk result (0 < self.new.spare) }
        ensures err { OnErr result (self.new ≡ self.old) }
    {
        self.hops.reserve(1)
    }

    /// One more hop, behind the others, with these keys. With a spare place it can't fail.
    pub fn join(&mut self, keys: &LayerKeys) -> Result<(), AllocError>
        ensures ok { OnOk result (self.new.items ≡ self.old.items ++ hop_of (fresh_hop keys.now) ∷ []) }
        ensures err { OnErr result (self.new ≡ self.old) }
        ensures room { 0 < self.old.spare → IsOk result }
        ensures keystream { All HasKeystream self.old.items → All HasKeystream self.new.items }
    {
        self.hops.reserve(1)?;
        self.hops.push_reserved(Hop::of(keys));
        Ok(())
    }

    /// Seals the next body for the last hop: it gets that hop's Digest, and then the layers of all hops, the
    /// last hop's first. The answer is the 20 bytes of the last hop's running digest with the body.
    pub fn seal(&mut self, body: &mut [u8; 509]) -> [u8; 20]
        requires some { 0 < length self.old.items }
        requires keystream { All HasKeystream self.old.items }
        ensures body { (hops : List PathHop) → self.old.items ≡ map hop_of hops → body.new ≡ sealed_on hops body.old }
        ensures digest { (hops : List PathHop) → self.old.items ≡ map hop_of hops → result ≡ digest_on hops body.old }
        ensures state { (hops : List PathHop) → self.old.items ≡ map hop_of hops
            → self.new.items ≡ map hop_of (sent_on hops body.old) }
        ensures spare { self.new.spare ≡ self.old.spare }
    {
        seal_all(&mut self.hops, body)
    }

    /// Takes the layers off a body that came, the first hop's first, until a hop recognises it as its own. The
    /// answer is that hop's place among the hops, from 0, and the 20 bytes of its running digest with the body,
    /// which is then without layers. `None` exactly where no hop recognises it.
    pub fn take_off(&mut self, body: &mut [u8; 509]) -> Option<(usize, [u8; 20])>
        requires { All HasKeystream self.old.items }
        ensures from { (hops : List PathHop) → self.old.items ≡ map hop_of hops
            → recognised_as hops body.old ≡ option_map (λ r. record { hop = r.0 + 1; body = body.new }) result }
        ensures digest { IfSome result (λ r. (hops : List PathHop) → self.old.items ≡ map hop_of hops → r.0 + 1 ≡ length hops
            → r.1 ≡ digest_from hops body.new) }
        ensures state { (hops : List PathHop) → self.old.items ≡ map hop_of hops
            → self.new.items ≡ map hop_of (after_coming hops body.old) }
        ensures spare { self.new.spare ≡ self.old.spare }
    {
        take_off_until(&mut self.hops, body)
    }
}

// Seals a body for the last hop.
fn seal_all(hops: &mut [Hop], body: &mut [u8; 509]) -> [u8; 20]
    requires some { 0 < length hops.old }
    requires keystream { All HasKeystream hops.old }
    ensures body { (path : List PathHop) → hops.old ≡ map hop_of path → body.new ≡ sealed_on path body.old }
    ensures digest { (path : List PathHop) → hops.old ≡ map hop_of path → result ≡ digest_on path body.old }
    ensures state { (path : List PathHop) → hops.old ≡ map hop_of path → hops.new ≡ map hop_of (sent_on path body.old) }
{
    let last = hops.len() - 1;
    let digest = hops[last].forth.give_digest(body);
    put_on_all(hops, body);
    digest
}

// Puts the layers of all hops on a body, the last hop's first.
fn put_on_all(hops: &mut [Hop], body: &mut [u8; 509])
    requires { All HasKeystream hops.old }
    ensures body { body.new ≡ with_layers hops.old body.old }
    ensures state { hops.new ≡ map stepped_forth hops.old }
{
    let mut i = hops.len();
    while i > 0 {
        i -= 1;
        hops[i].forth.put_on(body);
    }
}

// Takes the layers off a body until a hop recognises it.
fn take_off_until(hops: &mut [Hop], body: &mut [u8; 509]) -> Option<(usize, [u8; 20])>
    requires { All HasKeystream hops.old }
    ensures from { (path : List PathHop) → hops.old ≡ map hop_of path
        → recognised_as path body.old ≡ option_map (λ r. record { hop = r.0 + 1; body = body.new }) result }
    ensures digest { IfSome result (λ r. (path : List PathHop) → hops.old ≡ map hop_of path → r.0 + 1 ≡ length path
        → r.1 ≡ digest_from path body.new) }
    ensures state { (path : List PathHop) → hops.old ≡ map hop_of path → hops.new ≡ map hop_of (after_coming path body.old) }
{
    for i in 0..hops.len() {
        if let Some(digest) = hops[i].back.take_off(body) {
            return Some((i, digest));
        }
    }
    None
}
