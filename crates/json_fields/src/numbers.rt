//! The numbers of JSON.
ghost use Rattle.std.specs.Prelude.{◌≡◌, ◌==◌, ◌<◌, length, slice_index, option_map, true, false, IsTrue};
ghost use Rattle.serde_json.specs.Data.{number};
ghost use Rattle.serde_json.specs.Read.{float_of, number_from, number_of};
ghost use Rattle.json_fields.specs.View.{view};

use crate::value::Json;
use fast_float::Numeral;

/// What the text of a number says: nothing where no float is near to it.
pub(crate) fn number_of<'t>(text: &str) -> Option<Json<'t>>
    ensures { option_map view result ≡ option_map number (number_of text.now) }
{
    let bytes = text.as_bytes();
    if has_minus(bytes) {
        below_zero(&Numeral::scan(&bytes[1..]))
    } else {
        from_zero(&Numeral::scan(bytes))
    }
}

fn has_minus(bytes: &[u8]) -> bool
    ensures value { result ≡ (slice_index bytes.now 0 == 45) }
    ensures len { IsTrue result → 0 < length bytes.now }
{
    !bytes.is_empty() && bytes[0] == b'-'
}

fn from_zero<'t>(numeral: &Numeral<'_>) -> Option<Json<'t>>
    ensures { option_map view result ≡ option_map number (number_from false numeral.now) }
{
    match numeral.to_u64() {
        Some(whole) => Some(Json::Whole(whole)),
        None => nearest(false, numeral),
    }
}

fn below_zero<'t>(numeral: &Numeral<'_>) -> Option<Json<'t>>
    ensures { option_map view result ≡ option_map number (number_from true numeral.now) }
{
    if let Some(whole) = numeral.to_i64(true) {
        if whole < 0 {
            return Some(Json::Negative(whole));
        }
    }
    nearest(true, numeral)
}

fn nearest<'t>(negative: bool, numeral: &Numeral<'_>) -> Option<Json<'t>>
    ensures { option_map view result ≡ option_map number (float_of negative numeral.now) }
{
    let float = numeral.to_float::<f64>(negative);
    if float.is_finite() {
        Some(Json::Float(float))
    } else {
        None
    }
}
