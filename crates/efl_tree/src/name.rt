// Names of variables, members, structures and procedures.
ghost use Rattle.std.specs.Prelude.{◌≡◌};

use ground::Text;
use std::marker::Model;

/// A name, one to 255 capitals and digits, the first a capital. Contracts see the list of its bytes.
#[derive(Drop)]
pub struct EflName {
    word: Text,
}

impl Model for EflName {
    ghost use Rattle.std.specs.Prelude.{List, ℕ};

    ghost Value = { List ℕ };

    ghost view = { λ name. name.word };
}

impl EflName {
    /// The name with this word, which is in capitals.
    pub fn new(word: Text) -> EflName
        ensures { result ≡ word }
    {
        EflName { word }
    }

    pub fn as_bytes(&self) -> &[u8]
        ensures { result.now ≡ self.now }
    {
        self.word.as_bytes()
    }
}
