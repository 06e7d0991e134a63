//! Authenticated SENDMEs (proposal 289).

ghost use Rattle.std.specs.Prelude.{◌≡◌, ◌≤◌, IfOk, length, take};
ghost use Rattle.tor_spec.specs.Sendme.{needs_no_proof, sendme_proof};
ghost use Rattle.circuit_model.specs.Packaged.{own_bodies, back_digest};
ghost use Rattle.circuit_model.specs.SendmeProof.{up_to_data, proves, is_right_sendme};
ghost use Rattle.plain_circuit.specs.Values.{log_of, rules_of};

use crate::log::Entry;
use crate::opened::{born_keys, digest_of};
use crate::packaged::own_bodies;
use crate::rules::Rules;
use crate::windows::{CIRCUIT_STEP, good_sendmes, packed};
use relay_cell::{command, is_version_0, read_proof};
use std::alloc::{AllocError, Global};

/// How many of these bodies stand up to and with the DATA with this number, counted from 1.
#[tactic(auto, unfolding(tor_spec::specs::RelayCell::relay_head))]
fn end_of_data(bodies: &[[u8; 509]], n: u128) -> usize
    ensures prefix { take result bodies.now ≡ up_to_data n bodies.now }
    ensures bound { result ≤ length bodies.now }
{
    let Some((body, rest)) = bodies.split_first() else {
        return 0;
    };
    if body[0] != command::DATA {
        return end_of_data(rest, n) + 1;
    }
    if n <= 1 {
        1
    } else {
        end_of_data(rest, n - 1) + 1
    }
}

/// The backward running digest after the packaged DATA with this number.
fn digest_up_to(alloc: Global, log: &[Entry<'_>], n: u128) -> Result<[u8; 20], AllocError>
    ensures { IfOk result (λ digest. digest ≡ back_digest (log_of log.now) (up_to_data n (own_bodies (log_of log.now)))) }
{
    let bodies = own_bodies(alloc, log)?;
    let end = end_of_data(&bodies, n);
    Ok(digest_of(&born_keys(log).db, &bodies[..end]))
}

/// Whether a payload carries this proof.
fn proves(owed_proof: &[u8; 20], payload: &[u8]) -> bool
    ensures { result ≡ proves owed_proof.now (sendme_proof payload.now) }
{
    match read_proof(payload) {
        Some(proof) => proof == *owed_proof,
        None => false,
    }
}

/// Whether a circuit SENDME is right: the DATA that it would acknowledge was packaged, and it carries
/// the proof of it or needs none by the rules.
#[tactic(auto, unfolding(circuit_model::specs::SendmeProof::is_right_sendme, circuit_model::specs::SendmeProof::proof_owed))]
pub fn is_right_sendme(
    alloc: Global,
    rules: &Rules,
    log: &[Entry<'_>],
    payload: &[u8],
) -> Result<bool, AllocError>
    ensures { IfOk result (λ right. right ≡ is_right_sendme (rules_of rules.now) (log_of log.now) payload.now) }
{
    let next = CIRCUIT_STEP * (good_sendmes(log) as u128 + 1);
    let owed_proof = digest_up_to(alloc, log, next)?;
    let is_packaged = next <= packed(log) as u128;
    let is_proved = needs_no_proof(rules, payload) || proves(&owed_proof, payload);
    Ok(is_packaged && is_proved)
}

/// Whether a payload needs no proof by the rules.
fn needs_no_proof(rules: &Rules, payload: &[u8]) -> bool
    ensures { result ≡ needs_no_proof (rules_of rules.now).least payload.now }
{
    rules.least == 0 && is_version_0(payload)
}
