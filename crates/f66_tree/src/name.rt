// Names of variables, arrays, units and common blocks.
ghost use Rattle.std.specs.Prelude.{◌≡◌, IfOk};
ghost use Rattle.std.specs.Str.{bytes_eq};

use ground::Text;
use std::alloc::AllocError;
use std::marker::Model;

/// A name, one to 255 capitals and digits, the first a capital; X3.9-1966, section 3.5, allows six characters,
/// which is for the checks to say. Contracts see the list of its bytes.
#[derive(Debug, Drop)]
pub struct Name {
    text: Text,
}

impl Model for Name {
    ghost use Rattle.std.specs.Prelude.{List, ℕ};

    ghost Value = { List ℕ };

    ghost view = { λ name. name.text };
}

impl Name {
    /// The name with this text.
    pub fn new(text: Text) -> Name
        ensures { result ≡ text }
    {
        Name { text }
    }

    pub fn as_bytes(&self) -> &[u8]
        ensures { result.now ≡ self.now }
    {
        self.text.as_bytes()
    }

    /// The same name once more.
    pub fn copy(&self) -> Result<Name, AllocError>
        ensures { IfOk result (λ r. r ≡ self.now) }
    {
        Ok(Name {
            text: self.text.clone()?,
        })
    }

    pub fn is_same(&self, other: &Name) -> bool
        ensures { result ≡ bytes_eq self.now other.now }
    {
        self.as_bytes() == other.as_bytes()
    }
}
