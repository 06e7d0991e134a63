// Which keys the settings may have.

ghost use Rattle.std.specs.Prelude.{◌≡◌, map, option_map};
ghost use Rattle.std.specs.List.{list_all};
ghost use Rattle.toml.specs.View.{table_view, view};
ghost use Rattle.tor_settings.specs.Keys.{has_known_keys, has_line_keys, has_listen, is_line_key, is_setting, keys_of, lines, values_in};
ghost use Rattle.toml.specs.Data.{as_array};

use crate::table::value_at;
use toml::{Table, Value};

/// Rule 3.
#[tactic(auto, unfolding(crate::specs::Keys::has_listen))]
pub(crate) fn has_listen(table: &Table) -> bool
    ensures { result ≡ has_listen (table_view table.now) }
{
    value_at(table, "listen").is_some()
}

/// Rule 4.
#[tactic(auto, unfolding(crate::specs::Keys::has_known_keys))]
pub(crate) fn has_known_keys(table: &Table) -> bool
    ensures { result ≡ has_known_keys (table_view table.now) }
{
    has_settings_alone(table) && have_line_keys(lines(table))
}

/// The lines of `allow`, in their order.
#[tactic(auto, unfolding(crate::specs::Keys::lines))]
pub(crate) fn lines(table: &Table) -> &[Value]
    ensures { map view result.now ≡ lines (table_view table.now) }
{
    match value_at(table, "allow") {
        Some(value) => items_of(value),
        None => &[],
    }
}

fn items_of(value: &Value) -> &[Value]
    ensures { map view result.now ≡ values_in (as_array (view value.now)) }
{
    match value.as_array() {
        Some(items) => items.as_slice(),
        None => &[],
    }
}

fn has_settings_alone(table: &Table) -> bool
    ensures { result ≡ list_all is_setting (keys_of (table_view table.now)) }
{
    for key in table.keys() {
        if !is_setting(key.as_str()) {
            return false;
        }
    }
    true
}

#[tactic(auto, unfolding(crate::specs::Keys::is_setting))]
fn is_setting(key: &str) -> bool
    ensures { result ≡ is_setting key.now }
{
    key == "listen"
        || key == "accept_slots"
        || key == "dial_slots"
        || key == "edge_slots"
        || key == "workers"
        || key == "accepts"
        || key == "circuit_window"
        || key == "sendme_least"
        || key == "allow"
}

fn have_line_keys(lines: &[Value]) -> bool
    ensures { result ≡ list_all has_line_keys (map view lines.now) }
{
    for line in lines {
        if !has_line_keys(line) {
            return false;
        }
    }
    true
}

#[tactic(auto, unfolding(crate::specs::Keys::has_line_keys))]
fn has_line_keys(line: &Value) -> bool
    ensures { result ≡ has_line_keys (view line.now) }
{
    match line.as_table() {
        Some(table) => has_line_keys_alone(table),
        None => true,
    }
}

fn has_line_keys_alone(table: &Table) -> bool
    ensures { result ≡ list_all is_line_key (keys_of (table_view table.now)) }
{
    for key in table.keys() {
        if !is_line_key(key.as_str()) {
            return false;
        }
    }
    true
}

#[tactic(auto, unfolding(crate::specs::Keys::is_line_key))]
fn is_line_key(key: &str) -> bool
    ensures { result ≡ is_line_key key.now }
{
    key == "host" || key == "port" || key == "to"
}
