//! The number that the text of a token is.
ghost use Rattle.std.specs.Prelude.{◌≡◌, true, false, option_map};
ghost use Rattle.fast_float.specs.Text.{scan};
ghost use Rattle.serde_json.specs.Read.{number_of, number_from, float_of};
ghost use Rattle.json_walk.specs.Numbers.{num_of};

use fast_float::Numeral;

/// A number as `serde_json` tells numbers apart.
#[derive(Clone, Copy, Drop)]
pub enum Parsed {
    /// A whole number from 0 to 2^64 - 1, written without a fraction or an exponent.
    Unsigned(u64),
    /// A whole number from -2^63 to -1, written so.
    Negative(i64),
    /// Any other, as the nearest float. `-0` is one of these.
    Float(f64),
}

/// The number that a JSON text writes; `None` where it is too large for a float.
#[tactic(auto, unfolding(serde_json::specs::Read::number_of))]
pub fn number_in(text: &str) -> Option<Parsed>
    ensures { option_map num_of result ≡ number_of text.now }
{
    let bytes = text.as_bytes();
    if !bytes.is_empty() && bytes[0] == b'-' {
        return with_minus(&bytes[1..]);
    }
    without_minus(bytes)
}

// The number whose digits these are.
fn without_minus(digits: &[u8]) -> Option<Parsed>
    ensures { option_map num_of result ≡ number_from false (scan digits.now) }
{
    let numeral = Numeral::scan(digits);
    match numeral.to_u64() {
        Some(n) => Some(Parsed::Unsigned(n)),
        None => float_in(&numeral, false),
    }
}

// The number whose digits stand behind a minus.
fn with_minus(digits: &[u8]) -> Option<Parsed>
    ensures { option_map num_of result ≡ number_from true (scan digits.now) }
{
    let numeral = Numeral::scan(digits);
    match numeral.to_i64(true) {
        Some(n) if n < 0 => Some(Parsed::Negative(n)),
        _ => float_in(&numeral, true),
    }
}

// The float nearest to a number, where one is near.
fn float_in(numeral: &Numeral<'_>, is_negative: bool) -> Option<Parsed>
    ensures { option_map num_of result ≡ float_of is_negative numeral.now }
{
    let float: f64 = numeral.to_float(is_negative);
    if float.is_finite() {
        return Some(Parsed::Float(float));
    }
    None
}
