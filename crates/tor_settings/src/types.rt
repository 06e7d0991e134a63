// Which types the values have.

ghost use Rattle.std.specs.Prelude.{◌≡◌, map, option_map};
ghost use Rattle.std.specs.List.{list_all};
ghost use Rattle.toml.specs.View.{table_view, view};
ghost use Rattle.tor_settings.specs.Types.{has_line_types, has_setting_types, has_types, is_list, is_text, is_whole_number};

use crate::keys::lines;
use crate::table::value_at;
use toml::{Table, Value};

/// Rule 5.
#[tactic(auto, unfolding(crate::specs::Types::has_types))]
pub(crate) fn has_types(table: &Table) -> bool
    ensures { result ≡ has_types (table_view table.now) }
{
    has_setting_types(table) && have_line_types(lines(table))
}

fn has_setting_types(table: &Table) -> bool
    ensures { result ≡ has_setting_types (table_view table.now) }
{
    is_text(value_at(table, "listen"))
        && is_whole_number(value_at(table, "accept_slots"))
        && is_whole_number(value_at(table, "dial_slots"))
        && is_whole_number(value_at(table, "edge_slots"))
        && is_whole_number(value_at(table, "workers"))
        && is_whole_number(value_at(table, "accepts"))
        && is_whole_number(value_at(table, "circuit_window"))
        && is_whole_number(value_at(table, "sendme_least"))
        && is_list(value_at(table, "allow"))
}

fn have_line_types(lines: &[Value]) -> bool
    ensures { result ≡ list_all has_line_types (map view lines.now) }
{
    for line in lines {
        if !has_line_types(line) {
            return false;
        }
    }
    true
}

#[tactic(auto, unfolding(crate::specs::Types::has_line_types))]
fn has_line_types(line: &Value) -> bool
    ensures { result ≡ has_line_types (view line.now) }
{
    line.is_table()
        && is_text(line.get("host"))
        && is_whole_number(line.get("port"))
        && is_text(line.get("to"))
}

fn is_text(value: Option<&Value>) -> bool
    ensures { result ≡ is_text (option_map (λ v. view v.now) value.entry) }
{
    match value {
        Some(value) => value.is_str(),
        None => true,
    }
}

fn is_whole_number(value: Option<&Value>) -> bool
    ensures { result ≡ is_whole_number (option_map (λ v. view v.now) value.entry) }
{
    match value {
        Some(value) => value.is_integer(),
        None => true,
    }
}

fn is_list(value: Option<&Value>) -> bool
    ensures { result ≡ is_list (option_map (λ v. view v.now) value.entry) }
{
    match value {
        Some(value) => value.is_array(),
        None => true,
    }
}
