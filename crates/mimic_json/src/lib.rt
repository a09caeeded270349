//! The lines of a report in JSON, as the crate `serde_json` defines and reads JSON.
//!
//! ```rust
//! use mimic_json::read_line;
//! use serde_json::Value;
//!
//! let line = r#"{ "type": "test", "event": "started", "name": "fly", "kind": "banana" }"#;
//! let value = read_line(alloc, line)?;
//! assert_eq!(rt; value.get("name").and_then(Value::as_str), Some("fly"));
//! ```
#![tactic(auto)]

ghost use Rattle.std.specs.Prelude.{◌≡◌, ◌∷◌, ◌++◌, [], IfErr, IfOk, List, Some};
ghost use Rattle.serde_json.specs.Read.{read as read_text};
ghost use Rattle.serde_json.specs.Errors.{IsMemory};
ghost use Rattle.serde_json.specs.View.{view};
ghost use Rattle.mimic_json.specs.Fields.{Field, object_of};
ghost use Rattle.mimic_json.specs.Lines.{IsReadAs, LinesAreObjects};

use serde_json::{Error, Value};
use std::alloc::Global;

/// Reads a line of a report in JSON, without its line end, by `serde_json`.
///
/// Its contract has the law that each line of a report is an object in `serde_json`'s definition of JSON. The value of such a line
/// has the fields of that object, and no others. An error then says that memory was refused.
pub fn read_line(alloc: Global, line: &str) -> Result<Value, Error>
    ensures law { LinesAreObjects }
    ensures read { IfOk result (λ value. read_text line.now ≡ Some (view value)) }
    ensures fields { (fields : List Field) → IsReadAs (line.now ++ 10 ∷ []) fields
        → IfOk result (λ value. view value ≡ object_of fields) }
    ensures memory { (fields : List Field) → IsReadAs (line.now ++ 10 ∷ []) fields
        → IfErr result IsMemory }
{
    Value::from_str(alloc, line)
}
