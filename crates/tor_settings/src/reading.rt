//! Reads the settings of a relay.

ghost use Rattle.std.specs.Prelude.{◌≡◌, IfErr, IfOk, None, Some, true};
ghost use Rattle.toml.specs.View.{table_view};
ghost use Rattle.std.specs.List.{list_all};
ghost use Rattle.tor_settings.specs.Keys.{lines};
ghost use Rattle.tor_settings.specs.Numbers.{has_port_in_range};
ghost use Rattle.tor_settings.specs.NumberValues.{AreNumbers};
ghost use Rattle.tor_settings.specs.Rules.{broken_rule, first_broken, later_rules};
ghost use Rattle.tor_settings.specs.Settings.{GivesSettings, HasValues, TellsFault, TellsRule, settings_of};

use crate::address::listen_address;
use crate::fault::SettingsFault;
use crate::keys::{has_known_keys, has_listen, lines};
use crate::lines::{allow_of_lines, are_whole, have_distinct_names};
use crate::number_values::Numbers;
use crate::numbers::{have_ports_in_range, numbers_of};
use crate::settings::Settings;
use crate::types::has_types;
use std::alloc::Global;
use toml::Table;

/// How many bytes a text of settings may have.
const MOST_BYTES: usize = 65_536;

/// How many accepting and dialling slots there may be together.
const MOST_SLOTS: u32 = 64;

/// How many lines `allow` may have.
const MOST_LINES: usize = 1000;

/// The settings that a text in TOML gives, with the default of each key that it leaves out.
///
/// # Errors
///
/// `Rule` with the number of the first rule that the text breaks, looked at in their order over the whole text:
/// 1. it has at most 65,536 bytes; 2. it is a TOML document; 3. `listen` is there; 4. every key is a known one;
/// 5. every value has its type; 6. every number is in its range; 7. accepting and dialling slots together are at
/// most 64; 8. `allow` has at most 1,000 lines; 9. every line has all its keys and a host name; 10. no two lines
/// have the same host, in any letter case, and port; 11. every address is four numbers and a port.
///
/// `Memory` where memory is wanting.
pub fn read_settings(alloc: Global, text: &[u8]) -> Result<Settings, SettingsFault>
    ensures ok { IfOk result (λ s. GivesSettings text.now (settings_of s)) }
    ensures err { IfErr result (TellsFault text.now) }
{
    if text.len() > MOST_BYTES {
        return Err(SettingsFault::Rule(1));
    }
    match toml::table_from_slice(alloc, text) {
        Ok(table) => settings_of_table(alloc, &table),
        Err(error) if error.is_memory() => Err(SettingsFault::Memory),
        Err(_) => Err(SettingsFault::Rule(2)),
    }
}

/// The settings of a document, or the first rule from 3 on that it breaks.
#[tactic(auto, unfolding(crate::specs::Numbers::has_numbers_in_range))]
fn settings_of_table(alloc: Global, table: &Table) -> Result<Settings, SettingsFault>
    ensures kept { IfOk result (λ s. broken_rule (table_view table.now) ≡ None) }
    ensures values { IfOk result (λ s. HasValues (table_view table.now) (settings_of s)) }
    ensures err { IfErr result (TellsRule (broken_rule (table_view table.now))) }
{
    if !has_listen(table) {
        return Err(SettingsFault::Rule(3));
    }
    if !has_known_keys(table) {
        return Err(SettingsFault::Rule(4));
    }
    if !has_types(table) {
        return Err(SettingsFault::Rule(5));
    }
    let Some(numbers) = numbers_of(table) else {
        return Err(SettingsFault::Rule(6));
    };
    if !have_ports_in_range(lines(table)) {
        return Err(SettingsFault::Rule(6));
    }
    settings_of_numbers(alloc, table, &numbers)
}

/// The settings of a document with these numbers, or the first rule from 7 on that it breaks.
#[tactic(auto, unfolding(crate::specs::Numbers::has_few_slots, crate::specs::Lines::has_few_lines, crate::specs::Lines::has_whole_lines, crate::specs::Lines::has_distinct_names, crate::specs::Addresses::has_addresses))]
fn settings_of_numbers(
    alloc: Global,
    table: &Table,
    numbers: &Numbers,
) -> Result<Settings, SettingsFault>
    requires numbers { AreNumbers (table_view table.now) numbers.now }
    requires ports { list_all has_port_in_range (lines (table_view table.now)) ≡ true }
    ensures kept { IfOk result (λ s. first_broken 7 (later_rules (table_view table.now)) ≡ None) }
    ensures values { IfOk result (λ s. HasValues (table_view table.now) (settings_of s)) }
    ensures err { IfErr result (TellsRule (first_broken 7 (later_rules (table_view table.now)))) }
{
    let lines = lines(table);
    if numbers.accept_slots + numbers.dial_slots > MOST_SLOTS {
        return Err(SettingsFault::Rule(7));
    }
    if lines.len() > MOST_LINES {
        return Err(SettingsFault::Rule(8));
    }
    if !are_whole(lines) {
        return Err(SettingsFault::Rule(9));
    }
    if !have_distinct_names(lines) {
        return Err(SettingsFault::Rule(10));
    }
    let Some(listen) = listen_address(table) else {
        return Err(SettingsFault::Rule(11));
    };
    let Ok(allow_list) = allow_of_lines(alloc, lines) else {
        return Err(SettingsFault::Memory);
    };
    match allow_list {
        Some(allow) => Ok(Settings {
            listen,
            accept_slots: numbers.accept_slots,
            dial_slots: numbers.dial_slots,
            edge_slots: numbers.edge_slots,
            workers: numbers.workers,
            accepts: numbers.accepts,
            allow,
            circuit_window: numbers.circuit_window,
            sendme_least: numbers.sendme_least as u8,
        }),
        None => Err(SettingsFault::Rule(11)),
    }
}
