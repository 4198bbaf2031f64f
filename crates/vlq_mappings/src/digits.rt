//! Base64 digits.
ghost use Rattle.std.specs.Prelude.{◌≡◌, ◌<◌, IfSome};
ghost use Rattle.vlq_mappings.specs.Digits.{digit};
ghost use Rattle.vlq_mappings.specs.Written.{glyph};

/// What a base64 digit is worth.
pub(crate) fn digit_of(byte: u8) -> Option<u8>
    ensures worth { result ≡ digit byte }
    ensures below { IfSome result (λ d. d < 64) }
{
    match byte {
        b'A'..=b'Z' => Some(byte - b'A'),
        b'a'..=b'z' => Some(byte - 71),
        b'0'..=b'9' => Some(byte + 4),
        b'+' => Some(62),
        b'/' => Some(63),
        _ => None,
    }
}

/// The base64 digit that is worth so much.
pub(crate) fn glyph_of(worth: u32) -> char
    requires { worth < 64 }
    ensures glyph { result ≡ glyph worth }
    ensures ascii { result < 128 }
{
    let worth = worth as u8;
    let byte = match worth {
        0..=25 => b'A' + worth,
        26..=51 => 71 + worth,
        52..=61 => worth - 4,
        62 => b'+',
        _ => b'/',
    };
    char::from(byte)
}
