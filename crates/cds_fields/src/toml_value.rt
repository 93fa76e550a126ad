//! The values of TOML.
ghost use Rattle.toml.specs.View.{view};
ghost use Rattle.cds_fields.specs.Toml.{of_toml};

use crate::value::TextValue;
use std::collections::BTreeMap;
use toml::Value;

impl TextValue for Value {
    ghost shown = { λ v. of_toml (view v) };

    #[tactic(auto, using(crate::proofs::Toml::toml_values))]
    fn as_whole(&self) -> Option<i128> {
        Some(i128::from(self.as_integer()?))
    }

    #[tactic(auto, using(crate::proofs::Toml::toml_values))]
    fn as_word(&self) -> Option<&str> {
        self.as_str()
    }

    #[tactic(auto, using(crate::proofs::Toml::toml_values))]
    fn as_flag(&self) -> Option<bool> {
        self.as_bool()
    }

    #[tactic(auto, using(crate::proofs::Toml::toml_values))]
    fn as_list(&self) -> Option<&[Value]> {
        match self.as_array() {
            Some(array) => Some(array.as_slice()),
            None => None,
        }
    }

    #[tactic(auto, using(crate::proofs::Toml::toml_values))]
    fn as_fields(&self) -> Option<&BTreeMap<String, Value>> {
        self.as_table()
    }
}
