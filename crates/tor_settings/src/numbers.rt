// The numbers of the settings: ranges and defaults.

ghost use Rattle.std.specs.Prelude.{◌≡◌, ◌≤◌, IfSome, IfNone, Some, None, false, map, option_map};
ghost use Rattle.std.specs.List.{list_all};
ghost use Rattle.toml.specs.View.{table_view, view};
ghost use Rattle.tor_settings.specs.Numbers.{has_port_in_range, number_at, number_or, number_within, port_is_in_range, port_of, settings_are_in_range};
ghost use Rattle.tor_settings.specs.NumberValues.{AreNumbers};

use crate::number_values::Numbers;
use crate::table::value_at;
use toml::{Table, Value};

/// The numbers of the document, unless one is out of its range.
#[tactic(auto, unfolding(crate::specs::Numbers::settings_are_in_range))]
pub(crate) fn numbers_of(table: &Table) -> Option<Numbers>
    ensures some { IfSome result (AreNumbers (table_view table.now)) }
    ensures none { IfNone result (settings_are_in_range (table_view table.now) ≡ false) }
{
    let accept_slots = number_at(table, "accept_slots", 1, 64, 16)?;
    let dial_slots = number_at(table, "dial_slots", 0, 63, 16)?;
    let edge_slots = number_at(table, "edge_slots", 0, 256, 32)?;
    let workers = number_at(table, "workers", 1, 64, 4)?;
    let accepts = number_at(table, "accepts", 0, 2_147_483_647, 0)?;
    let circuit_window = number_at(table, "circuit_window", 100, 1000, 1000)?;
    let sendme_least = number_at(table, "sendme_least", 0, 1, 1)?;
    Some(Numbers {
        accept_slots,
        dial_slots,
        edge_slots,
        workers,
        accepts,
        circuit_window,
        sendme_least,
    })
}

/// Whether each port of these lines is in its range, where it is there.
pub(crate) fn have_ports_in_range(lines: &[Value]) -> bool
    ensures { result ≡ list_all has_port_in_range (map view lines.now) }
{
    for line in lines {
        if !has_port_in_range(line) {
            return false;
        }
    }
    true
}

#[tactic(auto, unfolding(crate::specs::Numbers::has_port_in_range))]
fn has_port_in_range(line: &Value) -> bool
    ensures { result ≡ has_port_in_range (view line.now) }
{
    match line.get("port") {
        Some(value) => number_within(value, 1, 65535).is_some(),
        None => true,
    }
}

/// The port of a line.
#[tactic(auto, unfolding(crate::specs::Numbers::port_of))]
pub(crate) fn port_of(line: &Value) -> Option<u16>
    ensures { result ≡ port_of (view line.now) }
{
    Some(number_within(line.get("port")?, 1, 65535)? as u16)
}

/// The number of the document at a key, or the default where it has none there.
#[tactic(auto, unfolding(crate::specs::Numbers::number_at))]
fn number_at(table: &Table, key: &str, least: u32, most: u32, default: u32) -> Option<u32>
    requires least { least ≤ default }
    requires most { default ≤ most }
    ensures number { result ≡ number_at key.now least most default (table_view table.now) }
    ensures least { IfSome result (λ n. least ≤ n) }
    ensures most { IfSome result (λ n. n ≤ most) }
{
    match value_at(table, key) {
        Some(value) => number_within(value, least, most),
        None => Some(default),
    }
}

/// The whole number that a value is, where it lies in this range.
fn number_within(value: &Value, least: u32, most: u32) -> Option<u32>
    ensures number { result ≡ number_within least most (view value.now) }
    ensures least { IfSome result (λ n. least ≤ n) }
    ensures most { IfSome result (λ n. n ≤ most) }
{
    match u32::try_from(value.as_integer()?) {
        Ok(number) if least <= number && number <= most => Some(number),
        _ => None,
    }
}
