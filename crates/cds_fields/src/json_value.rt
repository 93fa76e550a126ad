//! The values of JSON.
ghost use Rattle.serde_json.specs.View.{view};
ghost use Rattle.cds_fields.specs.Json.{of_json};

use crate::value::TextValue;
use serde_json::Value;
use std::collections::BTreeMap;

impl TextValue for Value {
    ghost shown = { λ v. of_json (view v) };

    #[tactic(auto, using(crate::proofs::Json::json_values))]
    fn as_whole(&self) -> Option<i128> {
        self.as_number()?.as_i128()
    }

    #[tactic(auto, using(crate::proofs::Json::json_values))]
    fn as_word(&self) -> Option<&str> {
        self.as_str()
    }

    #[tactic(auto, using(crate::proofs::Json::json_values))]
    fn as_flag(&self) -> Option<bool> {
        self.as_bool()
    }

    #[tactic(auto, using(crate::proofs::Json::json_values))]
    fn as_list(&self) -> Option<&[Value]> {
        match self.as_array() {
            Some(array) => Some(array.as_slice()),
            None => None,
        }
    }

    #[tactic(auto, using(crate::proofs::Json::json_values))]
    fn as_fields(&self) -> Option<&BTreeMap<String, Value>> {
        self.as_object()
    }
}
