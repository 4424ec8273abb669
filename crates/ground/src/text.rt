// Texts and lists.
ghost use Rattle.std.specs.Prelude.{◌≡◌, ◌≤◌, ◌++◌, [], ◌∷◌, length, map, take, IfOk, IfSome, IsSome, ◌↔◌};
ghost use Rattle.std.specs.Char.{to_ascii_uppercase};
ghost use Rattle.std.specs.Str.{str_eq_ignore_ascii_case};

use std::alloc::{AllocError, Global};
use std::marker::Model;

/// A list, which contracts read as its items.
pub type List<T> = Vec<T>;

/// How many bytes lie in the text itself: FORTRAN's names have six, and few words of either language have more.
const ROOM: usize = 14;

/// A text, which contracts see as the list of its bytes. One of at most fourteen takes no memory.
#[derive(Debug, Drop)]
pub struct Text {
    bytes: Bytes,
}

#[derive(Debug, Drop)]
enum Bytes {
    Short(Short),
    Long(Box<Vec<u8>>),
}

/// At most fourteen bytes.
#[derive(Debug, Drop)]
struct Short {
    size: u8,
    bytes: [u8; ROOM],
}

impl Model for Short {
    ghost use Rattle.std.specs.Prelude.{◌≤◌, List, ℕ, take};

    ghost Value = { List ℕ };

    ghost view = { λ short. take short.size short.bytes };

    ghost invariant = { λ short. short.size ≤ 14 };
}

impl Model for Text {
    ghost use Rattle.std.specs.Prelude.{List, ℕ};
    ghost use Rattle.ground.specs.Texts.{bytes_of};

    ghost Value = { List ℕ };

    ghost view = { λ text. bytes_of text.bytes };
}

impl Short {
    fn new(bytes: &[u8]) -> Short
        requires { length bytes.now ≤ 14 }
        ensures { result ≡ bytes.now }
    {
        let mut room = [0; ROOM];
        room[..bytes.len()].copy_from_slice(bytes);
        Short {
            size: bytes.len() as u8,
            bytes: room,
        }
    }

    fn as_bytes(&self) -> &[u8]
        ensures { result.now ≡ self.now }
    {
        &self.bytes[..usize::from(self.size)]
    }

    /// In capitals.
    fn capitals(&self) -> Short
        ensures { result ≡ map to_ascii_uppercase self.now }
    {
        let mut bytes = self.bytes;
        bytes.make_ascii_uppercase();
        Short {
            size: self.size,
            bytes,
        }
    }

    /// With one byte more, where there is room for it.
    fn with(&self, byte: u8) -> Option<Short>
        ensures { IfSome result (λ short. short ≡ self.now ++ byte ∷ []) }
    {
        let size = usize::from(self.size);
        if size == ROOM {
            return None;
        }
        let mut bytes = self.bytes;
        bytes[size] = byte;
        Some(Short {
            size: self.size + 1,
            bytes,
        })
    }

    fn copy(&self) -> Short
        ensures { result ≡ self.now }
    {
        Short {
            size: self.size,
            bytes: self.bytes,
        }
    }
}

impl Clone for Text {
    ghost is_clone = { λ text copy. copy ≡ text };

    ghost is_infallible = { λ _. ⊥ };

    fn clone(&self) -> Result<Self, AllocError> {
        match &self.bytes {
            Bytes::Short(short) => Ok(Text {
                bytes: Bytes::Short(short.copy()),
            }),
            Bytes::Long(bytes) => Text::from_slice(*bytes.allocator(), bytes),
        }
    }
}

impl Text {
    /// The empty text.
    pub fn empty() -> Text
        ensures { result ≡ [] }
    {
        Text::short(&[])
    }

    /// The text of at most fourteen bytes. It takes no memory.
    pub fn short(bytes: &[u8]) -> Text
        requires { length bytes.now ≤ 14 }
        ensures { result ≡ bytes.now }
    {
        Text {
            bytes: Bytes::Short(Short::new(bytes)),
        }
    }

    /// The text of these bytes.
    pub fn new(bytes: Vec<u8>) -> Result<Text, AllocError>
        ensures { IfOk result (λ text. text ≡ bytes.items) }
    {
        if bytes.len() <= ROOM {
            return Ok(Text::short(&bytes));
        }
        let bytes = Box::new(*bytes.allocator(), bytes)?;
        Ok(Text {
            bytes: Bytes::Long(bytes),
        })
    }

    /// The text of these bytes, which stay where they are.
    pub fn from_slice(alloc: Global, bytes: &[u8]) -> Result<Text, AllocError>
        ensures { IfOk result (λ text. text ≡ bytes.now) }
    {
        if bytes.len() <= ROOM {
            return Ok(Text::short(bytes));
        }
        Text::new(Vec::from_slice(alloc, bytes)?)
    }

    pub fn as_bytes(&self) -> &[u8]
        ensures { result.now ≡ self.now }
    {
        match &self.bytes {
            Bytes::Short(short) => short.as_bytes(),
            Bytes::Long(bytes) => bytes,
        }
    }

    /// The text in capitals. It takes no memory.
    pub fn into_capitals(self) -> Text
        ensures { result ≡ map to_ascii_uppercase self }
    {
        let bytes = match self.bytes {
            Bytes::Short(short) => Bytes::Short(short.capitals()),
            Bytes::Long(mut bytes) => {
                bytes.make_ascii_uppercase();
                Bytes::Long(bytes)
            }
        };
        Text { bytes }
    }

    /// The text with one byte more.
    pub fn with(self, alloc: Global, byte: u8) -> Result<Text, AllocError>
        ensures { IfOk result (λ text. text ≡ self ++ byte ∷ []) }
    {
        match self.bytes {
            Bytes::Short(short) => short_with(alloc, &short, byte),
            Bytes::Long(mut bytes) => {
                bytes.push(byte)?;
                Ok(Text {
                    bytes: Bytes::Long(bytes),
                })
            }
        }
    }
}

fn short_with(alloc: Global, short: &Short, byte: u8) -> Result<Text, AllocError>
    ensures { IfOk result (λ text. text ≡ short.now ++ byte ∷ []) }
{
    match short.with(byte) {
        Some(short) => Ok(Text {
            bytes: Bytes::Short(short),
        }),
        None => {
            let mut bytes = Vec::from_slice(alloc, short.as_bytes())?;
            bytes.push(byte)?;
            Text::new(bytes)
        }
    }
}

/// Whether a name is this word in whatever case.
pub fn is_spelled(word: &[u8], name: &[u8]) -> bool
    ensures { result ≡ str_eq_ignore_ascii_case word.now name.now }
{
    word.eq_ignore_ascii_case(name)
}
