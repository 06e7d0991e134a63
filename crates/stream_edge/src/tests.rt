use super::*;
use std::test::Fail;

#[test]
fn fresh_stream(rt: HostRuntime) -> Result<(), Fail> {
    let mut places = Places::new();
    assert_eq!(rt; places.live(7), None);
    let place = places.take_place(7).ok_or("a place")?;
    assert_eq!(rt; places.live(7), Some(place));
    assert_eq!(rt; places.phase(place), Some(Phase::Reaching));
    assert_eq!(rt; places.serial(place), 0);
    assert!(rt; places.may_pack(place));
    assert_eq!(rt; places.count(place), 0);
    assert_eq!(rt; places.credit(place), CreditAnswer::TooMuch);
    Ok(())
}

#[test]
fn ended_stream_leaves_its_number(rt: HostRuntime) -> Result<(), Fail> {
    let mut places = Places::new();
    let first = places.take_place(7).ok_or("a place")?;
    places.ending(first);
    assert_eq!(rt; places.phase(first), Some(Phase::Ending));
    assert_eq!(rt; places.live(7), None);
    let second = places.take_place(7).ok_or("another place")?;
    assert_ne!(rt; first, second);
    assert_eq!(rt; places.live(7), Some(second));
    assert_eq!(rt; places.serial(second), 1);
    Ok(())
}
