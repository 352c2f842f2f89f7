//! The known members of answers.
ghost use Rattle.std.specs.Prelude.{◌≡◌};
ghost use Rattle.serde_json.specs.View.{view};
ghost use Rattle.operator_cmds.specs.Answer.{is_accepted};

use serde_json::Value;
use std::marker::Model;

/// The members of an answer that are known, as they were sent: an object. A contract sees it as its
/// data.
#[derive(Drop)]
pub struct KnownMembers {
    value: Value,
}

impl Model for KnownMembers {
    ghost use Rattle.serde_json.specs.Data.{Data};
    ghost use Rattle.serde_json.specs.View.{view as data_of};
    ghost use Rattle.json_data.specs.StoredData.{data_code};

    ghost Value = { Data };

    ghost coded = { data_code };

    ghost view = { λ known. data_of known.value };
}

impl KnownMembers {
    /// The object, lent.
    pub fn as_value(&self) -> &Value
        ensures { view result.now ≡ self.now }
    {
        &self.value
    }

    /// Whether the member `status` is `Accepted`. An answer without a status, as that to
    /// GetLocalListVersion, isn't.
    pub fn is_accepted(&self) -> bool
        ensures { result ≡ is_accepted self.now }
    {
        match self.value.get("status").and_then(|status| status.as_str()) {
            Some(status) => status == "Accepted",
            None => false,
        }
    }
}

impl From<Value> for KnownMembers {
    ghost from_gives = { λ value known. known ≡ view value };

    fn from(value: Value) -> KnownMembers
        ensures { result ≡ view value }
    {
        KnownMembers { value }
    }
}
