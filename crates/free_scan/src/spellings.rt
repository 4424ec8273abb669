// The signs of each dialect as they are spelled.
ghost use Rattle.std.specs.Prelude.{◌≡◌, ◌≤◌, false, length, map, Some, IfSome, IsTrue};
ghost use Rattle.free_scan.specs.Spellings.{is_spelled as is_spelled_by, longest_sign as longest_sign_of, ratfor_spellings, spellings as spellings_of};

use crate::lines::Character;
use ground::{Dialect, Sign};

/// A sign's characters, whose letters are small, and the sign.
type Spelling = (&'static [u8], Sign);

// Longer spellings stand first.
static RATFOR: [Spelling; 43] = [
    (b".false.", Sign::False),
    (b".true.", Sign::True),
    (b".and.", Sign::And),
    (b".not.", Sign::Not),
    (b".eq.", Sign::Eq),
    (b".ne.", Sign::Ne),
    (b".lt.", Sign::Lt),
    (b".le.", Sign::Le),
    (b".gt.", Sign::Gt),
    (b".ge.", Sign::Ge),
    (b".or.", Sign::Or),
    (b"^=", Sign::Ne),
    (b"&&", Sign::And),
    (b"||", Sign::Or),
    (b"$(", Sign::OpenBrace),
    (b"$)", Sign::CloseBrace),
    (b"**", Sign::Power),
    (b"==", Sign::Eq),
    (b"~=", Sign::Ne),
    (b"!=", Sign::Ne),
    (b"<=", Sign::Le),
    (b">=", Sign::Ge),
    (b"^", Sign::Not),
    (b"=", Sign::Assign),
    (b"+", Sign::Plus),
    (b"-", Sign::Minus),
    (b"*", Sign::Star),
    (b"/", Sign::Slash),
    (b"(", Sign::Open),
    (b")", Sign::Close),
    (b",", Sign::Comma),
    (b":", Sign::Colon),
    (b".", Sign::Point),
    (b"{", Sign::OpenBrace),
    (b"}", Sign::CloseBrace),
    (b"[", Sign::OpenBrace),
    (b"]", Sign::CloseBrace),
    (b"<", Sign::Lt),
    (b">", Sign::Gt),
    (b"&", Sign::And),
    (b"|", Sign::Or),
    (b"~", Sign::Not),
    (b"!", Sign::Not),
];

static EFL: [Spelling; 43] = [
    (b"**=", Sign::PowerAssign),
    (b"&&=", Sign::AndThenAssign),
    (b"||=", Sign::OrElseAssign),
    (b"+=", Sign::AddAssign),
    (b"-=", Sign::SubAssign),
    (b"*=", Sign::MulAssign),
    (b"/=", Sign::DivAssign),
    (b"&=", Sign::AndAssign),
    (b"|=", Sign::OrAssign),
    (b"++", Sign::Increment),
    (b"--", Sign::Decrement),
    (b"->", Sign::Arrow),
    (b"&&", Sign::AndThen),
    (b"||", Sign::OrElse),
    (b"^=", Sign::CaretEqual),
    (b"**", Sign::Power),
    (b"==", Sign::Eq),
    (b"~=", Sign::Ne),
    (b"!=", Sign::Ne),
    (b"<=", Sign::Le),
    (b">=", Sign::Ge),
    (b"^", Sign::Caret),
    (b"$", Sign::Dollar),
    (b"=", Sign::Assign),
    (b"+", Sign::Plus),
    (b"-", Sign::Minus),
    (b"*", Sign::Star),
    (b"/", Sign::Slash),
    (b"(", Sign::Open),
    (b")", Sign::Close),
    (b",", Sign::Comma),
    (b":", Sign::Colon),
    (b".", Sign::Point),
    (b"{", Sign::OpenBrace),
    (b"}", Sign::CloseBrace),
    (b"[", Sign::OpenBrace),
    (b"]", Sign::CloseBrace),
    (b"<", Sign::Lt),
    (b">", Sign::Gt),
    (b"&", Sign::And),
    (b"|", Sign::Or),
    (b"~", Sign::Not),
    (b"!", Sign::Not),
];

fn spellings(dialect: Dialect) -> &'static [Spelling]
    ensures { map (λ s. (s.0.now, s.1)) result.now ≡ spellings_of dialect }
{
    match dialect {
        Dialect::Ratfor => &RATFOR,
        Dialect::Efl => &EFL,
    }
}

/// Whether a line's characters begin with a spelling, whose letters are small, in whatever case.
pub fn is_spelled(spelling: &[u8], characters: &[Character]) -> bool
    ensures value { result ≡ is_spelled_by spelling.now characters.now }
    ensures within { IsTrue result → length spelling.now ≤ length characters.now }
{
    if begins_otherwise(spelling, characters) {
        return false;
    }
    for (i, byte) in spelling.iter().enumerate() {
        if i >= characters.len() || characters[i].byte.to_ascii_lowercase() != *byte {
            return false;
        }
    }
    true
}

/// Whether the first character already tells that they do not. Most spellings of a table are told so.
fn begins_otherwise(spelling: &[u8], characters: &[Character]) -> bool
    ensures { IsTrue result → is_spelled_by spelling.now characters.now ≡ false }
{
    match (spelling, characters) {
        ([byte, ..], [first, ..]) => first.byte.to_ascii_lowercase() != *byte,
        _ => false,
    }
}

/// The sign of one character that Ratfor's lines most often have, where no longer one can begin with it.
fn lone_sign(characters: &[Character]) -> Option<Sign>
    ensures { IfSome result (λ sign. longest_sign_of ratfor_spellings characters.now ≡ Some (sign, 1)) }
{
    let [first, rest @ ..] = characters else {
        return None;
    };
    match first.byte {
        b'+' => Some(Sign::Plus),
        b'-' => Some(Sign::Minus),
        b'/' => Some(Sign::Slash),
        b'(' => Some(Sign::Open),
        b')' => Some(Sign::Close),
        b',' => Some(Sign::Comma),
        b'{' => Some(Sign::OpenBrace),
        b'}' => Some(Sign::CloseBrace),
        b'=' if !is_spelled(b"=", rest) => Some(Sign::Assign),
        b'*' if !is_spelled(b"*", rest) => Some(Sign::Star),
        _ => None,
    }
}

/// The longest sign that a line's characters begin with, and how many characters it has.
pub fn longest_sign(dialect: Dialect, characters: &[Character]) -> Option<(Sign, usize)>
    ensures value { result ≡ longest_sign_of (spellings_of dialect) characters.now }
    ensures within { IfSome result (λ found. found.1 ≤ length characters.now) }
{
    if let Dialect::Ratfor = dialect {
        if let Some(sign) = lone_sign(characters) {
            return Some((sign, 1));
        }
    }
    first_spelled(dialect, characters)
}

fn first_spelled(dialect: Dialect, characters: &[Character]) -> Option<(Sign, usize)>
    ensures value { result ≡ longest_sign_of (spellings_of dialect) characters.now }
    ensures within { IfSome result (λ found. found.1 ≤ length characters.now) }
{
    for (spelling, sign) in spellings(dialect) {
        if is_spelled(spelling, characters) {
            return Some((*sign, spelling.len()));
        }
    }
    None
}
