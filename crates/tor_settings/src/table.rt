// What a document has at a key.

ghost use Rattle.std.specs.Prelude.{◌≡◌, option_and_then, option_copied, option_map};
ghost use Rattle.toml.specs.Data.{as_str, get, get_member};
ghost use Rattle.toml.specs.View.{table_view, view};
ghost use Rattle.tor_settings.specs.Lines.{text_at};

use toml::{Table, Value};

/// The value of the document at a key.
pub(crate) fn value_at<'a>(table: &'a Table, key: &str) -> Option<&'a Value>
    ensures { option_map (λ v. view v.now) result ≡ get_member key.now (table_view table.now) }
{
    table.get(key)
}

/// The text of a line at a key.
pub(crate) fn text_at<'a>(line: &'a Value, key: &str) -> Option<&'a str>
    ensures { option_copied result ≡ text_at key.now (view line.now) }
{
    line.get(key)?.as_str()
}
