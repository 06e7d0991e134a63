//! Numbers and addresses as texts.

ghost use Rattle.std.specs.Prelude.{◌≡◌, ◌∷◌, ◌++◌, [], OnOk, IfOk};
ghost use Rattle.tor_spec.specs.Decimal.{decimal_digits};
ghost use Rattle.socks_front.specs.Messages.{dotted};

use cell_codec::Bytes;
use std::alloc::{AllocError, Global};

/// The bytes of the longest address as a text.
const LONGEST: u32 = 15;

/// Adds a number in decimal digits, without leading zeros.
#[tactic(auto, using(std::proofs::lemmas::Fmt::decimal_digit, tor_spec::proofs::Decimals::last_digit))]
fn push_decimal(text: &mut Bytes, number: u8) -> Result<(), AllocError>
    ensures { OnOk result (text.new.items ≡ text.old.items ++ decimal_digits number) }
{
    if number < 10 {
        return text.push(b'0' + number);
    }
    push_decimal(text, number / 10)?;
    text.push(b'0' + number % 10)
}

/// Adds a dot and a number.
fn push_behind_dot(text: &mut Bytes, number: u8) -> Result<(), AllocError>
    ensures { OnOk result (text.new.items ≡ text.old.items ++ 46 ∷ decimal_digits number) }
{
    text.push(b'.')?;
    push_decimal(text, number)
}

/// An IPv4 address as a text with dots.
pub fn dotted_text(alloc: Global, ip: [u8; 4]) -> Result<Bytes, AllocError>
    ensures { IfOk result (λ text. text.items ≡ dotted ip) }
{
    let mut text = Bytes::with_room(alloc, LONGEST)?;
    push_decimal(&mut text, ip[0])?;
    push_behind_dot(&mut text, ip[1])?;
    push_behind_dot(&mut text, ip[2])?;
    push_behind_dot(&mut text, ip[3])?;
    Ok(text)
}
