//! Numbers of JSON values.
ghost use Rattle.std.specs.Prelude.{◌≡◌};
ghost use Rattle.serde_json.specs.View.{view};
ghost use Rattle.json_shapes.specs.Shapes.{offset_of};

use serde_json::Value;

/// A number of at most 32 bits: `None` exactly where the value is another one, or is no whole number as `as_u64` answers.
pub fn offset_in(value: &Value) -> Option<u32>
    ensures { result ≡ offset_of (view value.now) }
{
    match value.as_u64() {
        Some(number) if number < 1 << 32 => Some(number as u32),
        _ => None,
    }
}
