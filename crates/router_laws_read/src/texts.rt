//! The texts in JSON.
ghost use Rattle.std.specs.Prelude.{◌≡◌, ℕ, List, Some};
ghost use Rattle.std.specs.Str.{IsUtf8};
ghost use Rattle.serde_json.specs.Data.{Data};
ghost use Rattle.serde_json.specs.Read.{read};
ghost use Rattle.router_laws_read.specs.Texts.{HasTexts};

/// Each text in a JSON value is UTF-8, escapes and all, where the text of the value is.
pub fn texts_of_json_are_utf8()
    ensures { (text : List ℕ) (d : Data) → IsUtf8 text → read text ≡ Some d → HasTexts d }
{}
