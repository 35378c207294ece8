//! The word of a request.
ghost use Rattle.std.specs.Prelude.{◌≡◌};
ghost use Rattle.json_fields.specs.View.{view};
ghost use Rattle.request_json.specs.Word.{word_of};

use json_fields::fields::text_at;
use json_fields::value::Json;
use words::Word;

/// The word that a value asks to be done.
pub(crate) fn word_of(value: &Json<'_>) -> Option<Word>
    ensures { result ≡ word_of (view value.now) }
{
    Word::of(text_at(value, "do")?)
}
