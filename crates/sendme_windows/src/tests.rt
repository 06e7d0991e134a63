ghost use Rattle.std.specs.Prelude.{◌≤◌};

use crate::{ProofAnswer, Windows};

// Version 1 and a proof of 20 bytes.
fn sendme(proof: u8) -> [u8; 23] {
    let mut payload = [proof; 23];
    payload[..3].copy_from_slice(&[1, 0, 20]);
    payload
}

#[test]
fn window_of_a_thousand(rt: HostRuntime) {
    let mut windows = Windows::new(1000, 1);
    assert_eq!(rt; windows.proof_of(&sendme(0)), ProofAnswer::NoneOwed);
    for number in 0..1000u64 {
        assert!(rt; windows.may_pack());
        windows.packed(&[(number / 100) as u8; 20]);
    }
    assert!(rt; !windows.may_pack());
    assert_eq!(rt; windows.count(), 1000);

    assert_eq!(rt; windows.proof_of(&[1, 0, 20]), ProofAnswer::BadForm);
    let wrong = ProofAnswer::Wrong {
        expected: [0; 20],
        given: [1; 20],
    };
    assert_eq!(rt; windows.proof_of(&sendme(1)), wrong);
    assert!(rt; !windows.may_pack());
    assert_eq!(rt; windows.proof_of(&sendme(0)), ProofAnswer::Good);
    assert!(rt; windows.may_pack());
    assert_eq!(rt; windows.proof_of(&sendme(1)), ProofAnswer::Good);
}

#[test]
fn sendme_for_each_hundred(rt: HostRuntime) {
    let mut windows = Windows::new(1000, 1);
    for number in 1..301u64 {
        assert_eq!(rt; windows.accepted(), number % 100 == 0, "at {number}");
    }
}

/// What a SENDME with this payload is worth where 100 DATA cells, the whole window, were packaged, and
/// whether one more may be packaged behind it.
fn answer_after_a_hundred(least: u8, payload: &[u8]) -> (ProofAnswer, bool)
    requires { least ≤ 1 }
{
    let mut windows = Windows::new(100, least);
    for _ in 0..100u64 {
        if windows.may_pack() {
            windows.packed(&[7; 20]);
        }
    }
    let answer = windows.proof_of(payload);
    (answer, windows.may_pack())
}

#[test]
fn version_0_needs_no_proof_where_it_is_accepted(rt: HostRuntime) {
    let good = (ProofAnswer::Good, true);
    let bad_form = (ProofAnswer::BadForm, false);
    assert_eq!(rt; answer_after_a_hundred(0, &[]), good);
    assert_eq!(rt; answer_after_a_hundred(0, &[0, 9]), good);
    assert_eq!(rt; answer_after_a_hundred(0, &sendme(7)), good);
    assert_eq!(rt; answer_after_a_hundred(0, &[2]), bad_form);
    assert_eq!(rt; answer_after_a_hundred(1, &[]), bad_form);
    assert_eq!(rt; answer_after_a_hundred(1, &[0, 9]), bad_form);
    assert_eq!(rt; answer_after_a_hundred(1, &sendme(7)), good);
}

#[test]
fn version_0_needs_a_proof_that_is_owed(rt: HostRuntime) {
    let mut windows = Windows::new(100, 0);
    assert_eq!(rt; windows.proof_of(&[]), ProofAnswer::NoneOwed);
    for _ in 0..100u64 {
        assert!(rt; windows.may_pack());
        windows.packed(&[7; 20]);
    }
    assert!(rt; !windows.may_pack());
    assert_eq!(rt; windows.proof_of(&[]), ProofAnswer::Good);
    assert!(rt; windows.may_pack());
    assert_eq!(rt; windows.proof_of(&[]), ProofAnswer::NoneOwed);
}
