use crate::Berth;
use crate::note::BerthNote;
use std::test::Fail;
use tr_io::names::ChanNo;
use tr_io::stepping::Turn;

fn note(session: u64) -> BerthNote {
    BerthNote {
        session,
        chan: Some(ChanNo(session)),
        key: None,
    }
}

#[test]
fn one_note_lies_in_the_box_at_a_time(rt: HostRuntime) -> Result<(), Fail> {
    let (mut first, mut second) = Berth::pair(&rt, rt.alloc())?;
    assert!(rt; matches!(&second.take(), Turn::Did(None)));
    assert!(rt; matches!(&first.put(note(1)), Turn::Did(true)));
    assert!(rt; matches!(&first.put(note(2)), Turn::Did(false)));
    let taken_note = match second.take() {
        Turn::Did(note) => note,
        Turn::Spent => None,
    };
    assert_eq!(rt; taken_note, Some(note(1)));
    assert!(rt; matches!(&second.take(), Turn::Did(None)));
    first.join(second);
    Ok(())
}
