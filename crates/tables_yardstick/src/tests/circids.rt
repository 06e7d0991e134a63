//! `CircuitTable` beside a list of its entries.

use crate::tests::drawing::below;
use circuit_table::CircuitTable;
use rand_core::SeedableRng;
use rand_xoshiro::SplitMix64;
use std::process::Abort;
use std::test::Fail;
use tr_io::names::{ChanNo, CircNo};

/// An entry of the list.
#[derive(Clone, Copy)]
struct Entry {
    chan: u64,
    id: u32,
    circ: CircNo,
    leg: u32,
}

#[derive(Drop)]
struct PlainTable {
    entries: Vec<Entry>,
}

impl PlainTable {
    fn find(&self, chan: u64, id: u32) -> Option<(CircNo, u32)> {
        for entry in &self.entries {
            if entry.chan == chan && entry.id == id {
                return Some((entry.circ, entry.leg));
            }
        }
        None
    }

    fn remove(&mut self, chan: u64, id: u32) {
        self.entries
            .retain(|entry| entry.chan != chan || entry.id != id);
    }

    fn ids(&self, chan: u64) -> usize {
        self.entries
            .iter()
            .filter(|entry| entry.chan == chan)
            .count()
    }
}

/// Both find the same at each CircID of each channel.
fn compare(rt: &impl Abort, table: &CircuitTable, plain: &PlainTable) {
    for chan in 0..5 {
        for id in 0..40 {
            assert_eq!(rt; table.find(ChanNo(chan), id), plain.find(chan, id));
        }
    }
}

/// A CircID that is free is given to a leg, and one that is used is freed.
#[test]
fn ten_thousand_calls_agree_with_a_list(rt: HostRuntime) -> Result<(), Fail> {
    let mut table = CircuitTable::new(rt.alloc());
    let mut plain = PlainTable {
        entries: Vec::new(rt.alloc()),
    };
    let mut words = SplitMix64::seed_from_u64(15);
    for round in 0..10_000u32 {
        let chan = below(&mut words, 5);
        let id = below(&mut words, 40) as u32;
        let circ = CircNo(below(&mut words, 512));
        let leg = round % 3;
        let found_leg = table.find(ChanNo(chan), id);
        assert_eq!(rt; found_leg, plain.find(chan, id));
        match found_leg {
            None => {
                table.insert(ChanNo(chan), id, circ, leg)?;
                plain.entries.push(Entry {
                    chan,
                    id,
                    circ,
                    leg,
                })?;
            }
            Some(_) => {
                table.remove(ChanNo(chan), id);
                plain.remove(chan, id);
            }
        }
        assert_eq!(rt; table.find(ChanNo(chan), id), plain.find(chan, id));
        assert_eq!(rt; table.ids(ChanNo(chan)) as usize, plain.ids(chan));
    }
    compare(&rt, &table, &plain);
    Ok(())
}
