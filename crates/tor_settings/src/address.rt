// An IPv4 address and a port as a text, "a.b.c.d:port".

ghost use Rattle.std.specs.Prelude.{◌≡◌, ◌==◌, ◌≤◌, IfNone, IfSome, None, Some, if◌then◌else◌, length, option_map};
ghost use Rattle.std.specs.List.{after_first, before_first, position};
ghost use Rattle.toml.specs.View.{table_view, view};
ghost use Rattle.tor_settings.specs.Values.{address_of};
ghost use Rattle.tor_spec.specs.Decimal.{decimal_value};
ghost use Rattle.tor_settings.specs.Addresses.{address_to, listen_address};
ghost use Rattle.tor_settings.specs.AddressText.{address_of_text, has_digits, ip_of_text, octet_of_text};

use crate::table::{text_at, value_at};
use relay_cell::decimal::{are_digits, decimal_value, read_port};
use toml::{Table, Value};
use tr_io::names::Dest;

/// Where the relay listens.
#[tactic(auto, unfolding(crate::specs::Addresses::listen_address))]
pub(crate) fn listen_address(table: &Table) -> Option<Dest>
    ensures { option_map address_of result ≡ listen_address (table_view table.now) }
{
    address_of_text(value_at(table, "listen")?.as_str()?.as_bytes())
}

/// Where a line leads.
#[tactic(auto, unfolding(crate::specs::Addresses::address_to))]
pub(crate) fn address_to(line: &Value) -> Option<Dest>
    ensures { option_map address_of result ≡ address_to (view line.now) }
{
    address_of_text(text_at(line, "to")?.as_bytes())
}

/// The address that a text writes.
#[tactic(auto, unfolding(crate::specs::AddressText::address_of_text))]
fn address_of_text(text: &[u8]) -> Option<Dest>
    ensures { option_map address_of result ≡ address_of_text text.now }
{
    let (ip, port) = split_at(text, b':');
    let ip = ip_of_text(ip)?;
    let port = read_port(port)?;
    Some(Dest { ip, port })
}

#[tactic(auto, unfolding(crate::specs::AddressText::ip_of_text, crate::specs::AddressText::parts_at_dots))]
fn ip_of_text(text: &[u8]) -> Option<[u8; 4]>
    ensures { result ≡ ip_of_text text.now }
{
    let (first, second) = split_at(text, b'.');
    let (second, third) = split_at(second, b'.');
    let (third, fourth) = split_at(third, b'.');
    let first = octet_of_text(first)?;
    let second = octet_of_text(second)?;
    let third = octet_of_text(third)?;
    let fourth = octet_of_text(fourth)?;
    Some([first, second, third, fourth])
}

/// What is in front of the first such byte, and what is behind it; all, and nothing, where there is none.
#[tactic(auto, using(crate::proofs::Texts::before_at, crate::proofs::Texts::after_at, crate::proofs::Texts::before_none, crate::proofs::Texts::after_none))]
fn split_at(text: &[u8], byte: u8) -> (&[u8], &[u8])
    ensures before { result.0.now ≡ before_first (λ b. b == byte) text.now }
    ensures behind { result.1.now ≡ after_first (λ b. b == byte) text.now }
{
    match first_place(text, byte) {
        Some(place) => (&text[..place], &text[place + 1..]),
        None => (text, &[]),
    }
}

fn first_place(text: &[u8], byte: u8) -> Option<usize>
    ensures { result ≡ position (λ b. b == byte) text.now }
{
    text.iter().position(|b| *b == byte)
}

#[tactic(auto, unfolding(crate::specs::AddressText::octet_of_text))]
fn octet_of_text(text: &[u8]) -> Option<u8>
    ensures { result ≡ octet_of_text text.now }
{
    u8::try_from(number_of_text(text, 3)?).ok()
}

/// The number that one to so many decimal digits write.
#[tactic(auto, using(crate::proofs::Texts::port_digits))]
fn number_of_text(text: &[u8], most_digits: usize) -> Option<u32>
    requires { most_digits ≤ 5 }
    ensures { result ≡ (if has_digits most_digits text.now then Some (decimal_value text.now) else None) }
{
    if has_digits(text, most_digits) {
        Some(decimal_value(text))
    } else {
        None
    }
}

#[tactic(auto, unfolding(crate::specs::AddressText::has_digits))]
fn has_digits(text: &[u8], most_digits: usize) -> bool
    ensures { result ≡ has_digits most_digits text.now }
{
    1 <= text.len() && text.len() <= most_digits && are_digits(text)
}
