// A text of the command line.
ghost use Rattle.std.specs.Prelude.{◌≡◌, string_bytes};

use std::marker::Model;

/// A text, which clauses see as the list of its bytes.
#[derive(Debug, Drop)]
pub struct Text {
    string: String,
}

impl Model for Text {
    ghost use Rattle.std.specs.Prelude.{List, ℕ, string_bytes};

    ghost Value = { List ℕ };

    ghost view = { λ t. string_bytes t.string };
}

impl Text {
    /// Makes a text of a `String`, which it keeps as it is.
    pub fn from_string(string: String) -> Self
        ensures { result ≡ string_bytes string }
    {
        Text { string }
    }

    /// Returns the `String`, with no copy.
    pub fn into_string(self) -> String
        ensures { string_bytes result ≡ self }
    {
        self.string
    }

    /// Borrows the text.
    pub fn as_str(&self) -> &str
        ensures { result.now ≡ self.now }
    {
        self.string.as_str()
    }
}
