//! The revision of a map.
ghost use Rattle.std.specs.Prelude.{◌≡◌};
ghost use Rattle.serde_json.specs.View.{view};
ghost use Rattle.source_maps.specs.Maps as maps;

use serde_json::Value;

/// Whether a value's `version` is the number 3.
pub fn has_version_3(value: &Value) -> bool
    ensures { result ≡ maps.has_version_3 (view value.now) }
{
    match value.get("version") {
        Some(version) => version.as_u64() == Some(3),
        None => false,
    }
}
