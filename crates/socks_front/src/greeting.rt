//! The greeting (RFC 1928, section 3).

ghost use Rattle.std.specs.Prelude.{◌≡◌, length};
ghost use Rattle.std.specs.List.{list_any};
ghost use Rattle.socks_front.specs.Answering.{IsShortUntilEnd, outcome_of};
ghost use Rattle.socks_front.specs.Messages.{is_no_authentication};
ghost use Rattle.socks_front.specs.Reading.{methods_outcome, offer_outcome, outcome};

use crate::fault::SocksFault;
use crate::progress::Progress;
use crate::reply::{NO_AUTHENTICATION, VERSION};
use crate::request::read_request;

/// What a client's bytes come to.
pub fn read_bytes(bytes: &[u8]) -> Progress<'_>
    ensures outcome { outcome_of result ≡ outcome bytes.now }
    ensures short { IsShortUntilEnd (outcome_of result) (length bytes.now) 518 }
{
    match bytes {
        [] => Progress::Nothing,
        [VERSION, offer @ ..] => read_offer(offer),
        [version, ..] => Progress::Fault(SocksFault::Version(*version)),
    }
}

/// What the bytes behind the greeting's version come to.
fn read_offer(bytes: &[u8]) -> Progress<'_>
    ensures outcome { outcome_of result ≡ offer_outcome bytes.now }
    ensures short { IsShortUntilEnd (outcome_of result) (length bytes.now) 517 }
{
    match bytes {
        [] => Progress::Nothing,
        [count, rest @ ..] => read_methods(*count, rest),
    }
}

/// What the bytes behind the number of methods come to.
#[tactic(auto, unfolding(crate::specs::Reading::methods_outcome))]
fn read_methods(count: u8, bytes: &[u8]) -> Progress<'_>
    ensures outcome { outcome_of result ≡ methods_outcome count bytes.now }
    ensures short { IsShortUntilEnd (outcome_of result) (length bytes.now) 516 }
{
    match bytes.split_at_checked(usize::from(count)) {
        None => Progress::Nothing,
        Some((methods, request)) => {
            if offers_no_authentication(methods) {
                read_request(request)
            } else {
                Progress::Fault(SocksFault::NoMethod)
            }
        }
    }
}

fn offers_no_authentication(methods: &[u8]) -> bool
    ensures { result ≡ list_any is_no_authentication methods.now }
{
    methods.iter().any(|method| *method == NO_AUTHENTICATION)
}
