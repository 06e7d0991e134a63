//! What the table answers to a few calls.
use super::*;
use std::test::Fail;
use tr_io::names::{ChanNo, CircNo};

#[test]
fn a_circid_is_found_until_it_is_freed(rt: HostRuntime) -> Result<(), Fail> {
    let mut table = CircuitTable::new(rt.alloc());
    let (first, second) = (ChanNo(3), ChanNo(4));
    assert!(rt; table.find(first, 0x8000_0001).is_none());
    table.insert(first, 0x8000_0001, CircNo(0), 1)?;
    assert!(rt; table.find(second, 0x8000_0001).is_none());
    table.insert(second, 0x8000_0001, CircNo(7), 0)?;
    assert_eq!(rt; table.find(first, 0x8000_0001), Some((CircNo(0), 1)));
    assert_eq!(rt; table.find(second, 0x8000_0001), Some((CircNo(7), 0)));
    assert_eq!(rt; table.find(first, 0x8000_0002), None);
    table.remove(first, 0x8000_0001);
    table.remove(first, 0x8000_0001);
    assert_eq!(rt; table.find(first, 0x8000_0001), None);
    assert_eq!(rt; table.find(second, 0x8000_0001), Some((CircNo(7), 0)));
    assert_eq!(rt; table.ids(first), 0);
    assert_eq!(rt; table.ids(second), 1);
    Ok(())
}
