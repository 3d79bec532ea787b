//! Tables of values, looked up by a text.

ghost use Rattle.std.specs.Prelude.{◌≡◌, ℕ, List, Some, None, IfErr, OnOk, if◌then◌else◌};
ghost use Rattle.std.specs.Str.{bytes_eq};
ghost use Rattle.std.specs.Option.{option_copied};
ghost use Rattle.am_schedule.specs.Tables.{value_in};

use std::alloc::{AllocError, Global};
use std::collections::BTreeMap;

/// Returns an empty table.
#[tactic(auto, unfolding(crate::specs::Tables::value_in))]
pub(crate) fn empty_table<'a, T>(alloc: Global) -> BTreeMap<&'a str, T>
    ensures { (text : List ℕ) → value_in result text ≡ None }
{
    BTreeMap::new(alloc)
}

/// Returns the value of a text.
#[tactic(auto, unfolding(crate::specs::Tables::value_in))]
pub(crate) fn look_up<'t, 'a, T>(table: &'t BTreeMap<&'a str, T>, text: &str) -> Option<&'t T>
    ensures { option_copied result ≡ value_in table.now text.now }
{
    table.get(text)
}

/// Sets the value of a text.
#[tactic(auto, unfolding(crate::specs::Tables::value_in))]
pub(crate) fn set_value<'a, T: Drop>(
    table: &mut BTreeMap<&'a str, T>,
    key: &'a str,
    value: T,
) -> Result<(), AllocError>
    ensures { OnOk result ((text : List ℕ) → value_in table.new text
        ≡ (if bytes_eq key.now text then Some value else value_in table.old text)) }
{
    table.insert(key, value)?;
    Ok(())
}
