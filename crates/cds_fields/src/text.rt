//! Reading the values of a text in UTF-8.
ghost use Rattle.std.specs.Prelude.{◌≡◌, IfOk, option_map};
ghost use Rattle.serde_json.specs.View.{view as json_view};
ghost use Rattle.toml.specs.View.{view as toml_view};
ghost use Rattle.cds_fields.specs.Json.{of_json, json_value};
ghost use Rattle.cds_fields.specs.Seen.{fields_seen};
ghost use Rattle.cds_fields.specs.Toml.{of_toml, toml_fields};

use cds_base::NoMemory;
use serde_json::Value;
use std::alloc::Global;
use toml::Table;

/// The value of a text, which is JSON in UTF-8. None exactly where the text is none. Err only for want of memory.
pub fn read_json(alloc: Global, text: &[u8]) -> Result<Option<Value>, NoMemory>
    ensures { IfOk result (λ value. option_map (λ v. of_json (json_view v)) value ≡ json_value text.now) }
{
    match Value::from_slice(alloc, text) {
        Ok(value) => Ok(Some(value)),
        Err(error) => {
            if error.is_memory() {
                return Err(NoMemory);
            }
            Ok(None)
        }
    }
}

/// The table of a text, which is TOML in UTF-8. None exactly where the text is none. Err only for want of memory.
pub fn read_toml(alloc: Global, text: &[u8]) -> Result<Option<Table>, NoMemory>
    ensures { IfOk result
        (λ table. option_map (λ t. fields_seen (λ v. of_toml (toml_view v)) t.entries) table ≡ toml_fields text.now) }
{
    match toml::table_from_slice(alloc, text) {
        Ok(table) => Ok(Some(table)),
        Err(error) => {
            if error.is_memory() {
                return Err(NoMemory);
            }
            Ok(None)
        }
    }
}
