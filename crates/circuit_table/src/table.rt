//! The table: an index from ports to places in a slab of legs, and how many ports each channel has.
ghost use Rattle.std.specs.Prelude.{◌≡◌, ℕ, ◌-◌, ◌<◌, ◌==◌, if◌then◌else◌, OnOk, OnErr};
ghost use Rattle.std.specs.FinMap as map;
ghost use Rattle.circuit_table.specs.Ports.{ids_of};
ghost use Rattle.circuit_table.specs.Indexing.{count_of};

use slab::Slab;
use std::alloc::{AllocError, Global};
use std::collections::HashMap;
use std::marker::Model;
use tr_io::names::{ChanNo, CircNo};

/// Which leg of which circuit has a CircID of a channel.
///
/// Contracts see the finite map from channel and CircID to circuit and leg.
#[derive(Drop)]
pub struct CircuitTable {
    legs: Slab<(CircNo, u32)>,
    // Where in the slab the leg at a channel and CircID stands.
    places: HashMap<(u64, u32), usize>,
    // How many CircIDs a channel has. One that has none has no entry.
    counts: HashMap<u64, u32>,
}

impl Model for CircuitTable {
    ghost use Rattle.std.specs.Coded.{coded_ℕ, coded×};
    ghost use Rattle.std.specs.FinMap.{code};
    ghost use Rattle.circuit_table.specs.Ports.{Ports, leg_code};

    ghost Value = { Ports };

    ghost coded = { code (coded× coded_ℕ coded_ℕ) leg_code };

    ghost use Rattle.circuit_table.specs.Indexing.{ports_of, IsIndexed};

    ghost view = { λ t. ports_of t.legs t.places.entries };

    ghost invariant = { λ t. IsIndexed t.legs t.places.entries t.counts.entries };
}

impl CircuitTable {
    /// A table without entries, which holds no memory yet.
    pub fn new(alloc: Global) -> CircuitTable
        ensures { result ≡ map.empty }
    {
        CircuitTable {
            legs: Slab::new(alloc),
            places: HashMap::new(alloc),
            counts: HashMap::new(alloc),
        }
    }

    /// Gives a free CircID of a channel to a leg of a circuit.
    ///
    /// # Errors
    ///
    /// [`AllocError`] where memory is wanting, and then the table stays as it was.
    pub fn insert(
        &mut self,
        chan: ChanNo,
        id: u32,
        circ: CircNo,
        leg: u32,
    ) -> Result<(), AllocError>
        requires { map.get self.old (chan.0, id) ≡ None }
        ensures ok { OnOk result (self.new ≡ map.insert self.old (chan.0, id) (circ, leg)) }
        ensures err { OnErr result (self.new ≡ self.old) }
    {
        let ids = self.ids(chan);
        if ids == u32::MAX {
            // All but one of the channel's CircIDs are in use: there is no memory for them.
            return Err(AllocError);
        }
        self.legs.reserve(1)?;
        self.places.reserve(1)?;
        self.counts.insert(chan.0, ids + 1)?;
        let place = self.legs.insert_reserved((circ, leg));
        let _ = self.places.insert((chan.0, id), place);
        Ok(())
    }

    /// The circuit and the leg that have the CircID of the channel. It takes no memory.
    pub fn find(&self, chan: ChanNo, id: u32) -> Option<(CircNo, u32)>
        ensures { result ≡ map.get self.now (chan.0, id) }
    {
        let place = self.places.get(&(chan.0, id))?;
        self.legs.get(*place).copied()
    }

    /// Frees the CircID of the channel, if a leg has it. It takes no memory.
    pub fn remove(&mut self, chan: ChanNo, id: u32)
        ensures { self.new ≡ map.remove self.old (chan.0, id) }
    {
        let Some(place) = self.places.remove(&(chan.0, id)) else {
            return;
        };
        self.legs.remove(place);
        count_down(&mut self.counts, chan.0);
    }

    /// How many CircIDs of the channel legs have. It takes no memory.
    pub fn ids(&self, chan: ChanNo) -> u32
        ensures { result ≡ ids_of self.now chan.0 }
    {
        self.counts.get(&chan.0).copied().unwrap_or(0)
    }
}

/// One CircID of the channel is counted less.
fn count_down(counts: &mut HashMap<u64, u32>, chan: u64)
    requires { 0 < count_of counts.old.entries chan }
    ensures { (c : ℕ) →
        count_of counts.new.entries c ≡ (if c == chan then count_of counts.old.entries c - 1 else count_of counts.old.entries c) }
{
    let Some(count) = counts.get(&chan).copied() else {
        return;
    };
    if count > 1 {
        let _ = counts.insert(chan, count - 1);
    } else {
        counts.remove(&chan);
    }
}
