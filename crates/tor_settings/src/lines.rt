// The lines of `allow`: the names that a stream may reach.

ghost use Rattle.std.specs.Prelude.{◌≡◌, IfOk, IfNone, IfSome, Some, None, codes, false, is_some, map, not, option_map};
ghost use Rattle.std.specs.List.{list_all, list_any};
ghost use Rattle.toml.specs.View.{view};
ghost use Rattle.tor_settings.specs.Values.{allow_of, target_of};
ghost use Rattle.tor_settings.specs.Addresses.{allow_of_line};
ghost use Rattle.tor_settings.specs.Lines.{are_alike, have_distinct_names, is_name, is_whole_line, name_of, text_at};
ghost use Rattle.tor_spec.specs.Begin.{is_host_length, is_host_name};
ghost use Rattle.tor_spec.specs.Text.{is_zero_byte};

use crate::address::address_to;
use crate::allowed_name::AllowedName;
use crate::names::Name;
use crate::numbers::port_of;
use crate::table::text_at;
use cell_codec::{Bytes, List};
use std::alloc::{AllocError, Global};
use toml::Value;

/// Whether each line has all its keys, and a host name.
pub(crate) fn are_whole(lines: &[Value]) -> bool
    ensures { result ≡ list_all is_whole_line (map view lines.now) }
{
    for line in lines {
        if !is_whole_line(line) {
            return false;
        }
    }
    true
}

#[tactic(auto, unfolding(crate::specs::Lines::is_whole_line))]
fn is_whole_line(line: &Value) -> bool
    ensures { result ≡ is_whole_line (view line.now) }
{
    has_host_name(line) && line.get("port").is_some() && line.get("to").is_some()
}

fn has_host_name(line: &Value) -> bool
    ensures { result ≡ is_name (text_at (codes "host") (view line.now)) }
{
    match text_at(line, "host") {
        Some(host) => is_host_name(host.as_bytes()),
        None => false,
    }
}

#[tactic(auto, unfolding(tor_spec::specs::Begin::is_host_name))]
fn is_host_name(host: &[u8]) -> bool
    ensures { result ≡ is_host_name host.now }
{
    is_host_length(host.len()) && !has_zero_byte(host)
}

#[tactic(auto, unfolding(tor_spec::specs::Begin::is_host_length))]
fn is_host_length(length: usize) -> bool
    ensures { result ≡ is_host_length length }
{
    1 <= length && length <= 255
}

fn has_zero_byte(host: &[u8]) -> bool
    ensures { result ≡ list_any is_zero_byte host.now }
{
    host.iter().any(|byte| *byte == 0)
}

/// Whether no two lines allow the same name.
pub(crate) fn have_distinct_names(lines: &[Value]) -> bool
    ensures { result ≡ have_distinct_names (map view lines.now) }
{
    match lines.split_first() {
        Some((line, more)) => have_other_names(line, more) && have_distinct_names(more),
        None => true,
    }
}

fn have_other_names(line: &Value, more: &[Value]) -> bool
    ensures { result ≡ list_all (λ other. not (are_alike (name_of (view line.now)) (name_of other))) (map view more.now) }
{
    for other in more {
        if have_one_name(line, other) {
            return false;
        }
    }
    true
}

fn have_one_name(line: &Value, other: &Value) -> bool
    ensures { result ≡ are_alike (name_of (view line.now)) (name_of (view other.now)) }
{
    match (name_of(line), name_of(other)) {
        (Some(one), Some(another)) => one.is_alike(&another),
        _ => false,
    }
}

/// The host and port that a line allows.
#[tactic(auto, unfolding(crate::specs::Lines::name_of))]
fn name_of(line: &Value) -> Option<Name<'_>>
    ensures { option_map target_of result ≡ name_of (view line.now) }
{
    let host = text_at(line, "host")?;
    let port = port_of(line)?;
    Some(Name { host, port })
}

/// What these lines allow, or `None` where one of them has no name or no address.
pub(crate) fn allow_of_lines(
    alloc: Global,
    lines: &[Value],
) -> Result<Option<List<AllowedName>>, AllocError>
    ensures some { IfOk result (λ found. IfSome found (λ allow.
        map allow_of_line (map view lines.now) ≡ map Some (map allow_of allow.items))) }
    ensures none { IfOk result (λ found. IfNone found (
        list_all (λ line. is_some (allow_of_line line)) (map view lines.now) ≡ false)) }
{
    let mut allow = List::new(alloc);
    for line in lines {
        match allow_of_line(alloc, line)? {
            Some(allowed_name) => allow.push(allowed_name)?,
            None => return Ok(None),
        }
    }
    Ok(Some(allow))
}

#[tactic(auto, unfolding(crate::specs::Addresses::allow_of_line))]
fn allow_of_line(alloc: Global, line: &Value) -> Result<Option<AllowedName>, AllocError>
    ensures { IfOk result (λ found. option_map allow_of found ≡ allow_of_line (view line.now)) }
{
    let Some(name) = name_of(line) else {
        return Ok(None);
    };
    let Some(to) = address_to(line) else {
        return Ok(None);
    };
    let host = Bytes::of(alloc, name.host.as_bytes())?;
    Ok(Some(AllowedName {
        host,
        port: name.port,
        to,
    }))
}
