//! Objects of JSON, made member by member.
//! Each call takes the members and returns them, so that a caller has nothing to drop where allocation fails.
ghost use Rattle.std.specs.Prelude.{◌≡◌, IfOk};
ghost use Rattle.serde_json.specs.Data.{no_members, object, put, string};
ghost use Rattle.serde_json.specs.View.{members_view, view};

use serde_json::{Map, Value, json, put};
use std::alloc::{AllocError, Global};

/// The members of an object, in the order of their keys.
pub struct Members {
    pub(crate) map: Map<String, Value>,
}

// Written by hand, so that dropping the members takes one call.
impl Drop for Members {
    fn drop(self) {
        let Members { map: _ } = self;
    }
}

impl Members {
    /// No members.
    pub fn new(alloc: Global) -> Members
        ensures { members_view result.map.entries ≡ no_members }
    {
        Members {
            map: Map::new(alloc),
        }
    }

    /// The members with this one.
    pub fn with(self, alloc: Global, key: &str, value: Value) -> Result<Members, AllocError>
        ensures { IfOk result (λ m. members_view m.map.entries ≡ put key.now (view value) (members_view self.map.entries)) }
    {
        let mut members = self;
        // the step of `json!`, whose clause says what the members are then
        put(&mut members.map, alloc, key, value)?;
        Ok(members)
    }

    /// The members with this text.
    pub fn with_text(self, alloc: Global, key: &str, text: &str) -> Result<Members, AllocError>
        ensures { IfOk result (λ m. members_view m.map.entries ≡ put key.now (string text.now) (members_view self.map.entries)) }
    {
        let value = json!(in alloc; text)?;
        self.with(alloc, key, value)
    }

    /// The object of these members.
    pub fn into_value(self) -> Value
        ensures { view result ≡ object (members_view self.map.entries) }
    {
        let Members { map } = self;
        Value::Object(map)
    }
}
