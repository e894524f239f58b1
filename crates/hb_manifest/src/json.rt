//! JSON and members of its objects, as `specs/Json` has them.
ghost use Rattle.std.specs.Prelude.{◌≡◌, Some, None, IfOk, IfErr, map, codes, option_map, option_copied, option_and_then, ◌≢◌};
ghost use Rattle.serde_json.specs.View.{view};
ghost use Rattle.hb_manifest.specs.Json.{json_of, when_object, whole_at, text_at, object_at, list_at};

use crate::manifests::ManifestFault;
use serde_json::Value;
use std::alloc::Global;

/// The object that the bytes are. `NotJson` where they aren't UTF-8, no JSON (RFC 8259; at most 127 arrays
/// and objects in one another) or another value.
pub(crate) fn object_of(alloc: Global, bytes: &[u8]) -> Result<Value, ManifestFault>
    ensures ok { IfOk result (λ v. option_and_then when_object (json_of bytes.now) ≡ Some (view v)) }
    ensures err { IfErr result (λ e. e ≢ ManifestFault.Memory → (e ≡ ManifestFault.NotJson) × (option_and_then when_object (json_of bytes.now) ≡ None)) }
{
    let value = value_of(alloc, bytes)?;
    if value.is_object() {
        Ok(value)
    } else {
        Err(ManifestFault::NotJson)
    }
}

fn value_of(alloc: Global, bytes: &[u8]) -> Result<Value, ManifestFault>
    ensures ok { IfOk result (λ v. json_of bytes.now ≡ Some (view v)) }
    ensures err { IfErr result (λ e. e ≢ ManifestFault.Memory → (e ≡ ManifestFault.NotJson) × (json_of bytes.now ≡ None)) }
{
    let Ok(text) = std::str::from_utf8(bytes) else {
        return Err(ManifestFault::NotJson);
    };
    match Value::from_str(alloc, text) {
        Ok(value) => Ok(value),
        Err(error) => {
            if error.is_memory() {
                Err(ManifestFault::Memory)
            } else {
                Err(ManifestFault::NotJson)
            }
        }
    }
}

/// A member that is an integer of at least 0 and below 2^64.
pub(crate) fn whole_at(value: &Value, name: &str) -> Option<u64>
    ensures { result ≡ whole_at name.now (view value.now) }
{
    value.get(name).and_then(Value::as_u64)
}

/// A member that is a string.
pub(crate) fn text_at<'v>(value: &'v Value, name: &str) -> Option<&'v [u8]>
    ensures { option_copied result ≡ text_at name.now (view value.now) }
{
    match value.get(name) {
        Some(member) => member.as_str().map(str::as_bytes),
        None => None,
    }
}

/// A member that is an object.
pub(crate) fn object_at<'v>(value: &'v Value, name: &str) -> Option<&'v Value>
    ensures { option_map (λ v. view v.now) result ≡ object_at name.now (view value.now) }
{
    match value.get(name) {
        Some(member) => {
            if member.is_object() {
                Some(member)
            } else {
                None
            }
        }
        None => None,
    }
}

/// A member that is an array.
pub(crate) fn list_at<'v>(value: &'v Value, name: &str) -> Option<&'v [Value]>
    ensures { option_map (λ items. map view items.now) result ≡ list_at name.now (view value.now) }
{
    match value.get(name) {
        Some(member) => match member.as_array() {
            Some(items) => Some(items.as_slice()),
            None => None,
        },
        None => None,
    }
}
