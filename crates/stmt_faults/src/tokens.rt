// What is asked of tokens: how deep their parentheses nest, and whether a number of a FORMAT is too large.
ghost use Rattle.std.specs.Prelude.{◌≡◌, ◌≤◌, nat_lt};
ghost use Rattle.std.specs.List.{list_any, list_all};
ghost use Rattle.stmt_reader.specs.Cutting.{depth as depth_behind};
ghost use Rattle.stmt_reader.specs.Faults.{is_large as is_large_token, is_too_deep as are_too_deep, width_is_large};
ghost use Rattle.stmt_reader.specs.Formats.{value_after};
ghost use Rattle.stmt_reader.specs.Levels.{is_digit as is_digit_character};

use stmt_reader::Token;

/// The parentheses that may be open.
const DEEPEST: u32 = 110;

/// The greatest number.
const GREATEST: u64 = 2_147_483_647;

/// Whether more than 110 parentheses are open at some token.
pub fn is_too_deep(tokens: &[Token]) -> bool
    ensures { result ≡ are_too_deep 0 tokens.now }
{
    let mut opened = 0;
    for token in tokens {
        if opened > DEEPEST {
            return true;
        }
        opened = depth(opened, token);
    }
    opened > DEEPEST
}

fn depth(opened: u32, token: &Token) -> u32
    requires { opened ≤ 110 }
    ensures depth { result ≡ depth_behind opened token.now }
    ensures bound { result ≤ 111 }
{
    match token {
        Token::Open => opened + 1,
        Token::Close => opened.saturating_sub(1),
        _ => opened,
    }
}

/// Whether a number or width of a FORMAT's tokens is too large.
pub fn has_large(tokens: &[Token]) -> bool
    ensures { result ≡ list_any is_large_token tokens.now }
{
    for token in tokens {
        if is_large(token) {
            return true;
        }
    }
    false
}

fn is_large(token: &Token) -> bool
    ensures { result ≡ is_large_token token.now }
{
    match token {
        Token::Number(n) => u64::from(*n) > GREATEST,
        Token::Word(word) => is_large_width(word.as_bytes()),
        _ => false,
    }
}

fn is_large_width(word: &[u8]) -> bool
    ensures { result ≡ width_is_large word.now }
{
    match word {
        [] => false,
        [_, digits @ ..] => are_digits(digits) && is_large_value(digits),
    }
}

fn are_digits(digits: &[u8]) -> bool
    ensures { result ≡ list_all is_digit_character digits.now }
{
    digits.iter().all(|c| is_digit(*c))
}

fn is_digit(c: u8) -> bool
    ensures { result ≡ is_digit_character c }
{
    b'0' <= c && c <= b'9'
}

/// Whether the value of digits is above 2147483647.
fn is_large_value(digits: &[u8]) -> bool
    ensures { result ≡ nat_lt 2147483647 (value_after 0 digits.now) }
{
    let mut value: u64 = 0;
    for c in digits {
        if value > GREATEST {
            return true;
        }
        value = value * 10 + u64::from(c.saturating_sub(b'0'));
    }
    value > GREATEST
}
