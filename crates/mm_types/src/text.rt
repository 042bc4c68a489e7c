ghost use Rattle.std.specs.Prelude.{◌≡◌, string_bytes};

use std::marker::Model;

/// A string, seen by contracts as the list of its bytes.
#[derive(Debug, Drop)]
pub struct Text {
    text: String,
}

impl Model for Text {
    ghost use Rattle.std.specs.Prelude.{ℕ, List, string_bytes};

    ghost Value = { List ℕ };

    ghost view = { λ t. string_bytes t.text };
}

impl Text {
    /// Owns the string.
    pub fn of(text: String) -> Text
        ensures { result ≡ string_bytes text }
    {
        Text { text }
    }

    /// Shows the string.
    pub fn as_str(&self) -> &str
        ensures { result.now ≡ self.now }
    {
        self.text.as_str()
    }
}
