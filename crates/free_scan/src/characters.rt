// Classes of bytes.
ghost use Rattle.std.specs.Prelude.{◌≡◌, ◌≤◌, drop, length};
ghost use Rattle.std.specs.List.{list_all, prefix_len};
ghost use Rattle.free_scan.specs.Characters.{begins_with as begins_with_byte, is_blank as is_blank_byte, is_line_end as is_line_end_at, is_printable as is_printable_byte, is_quote as is_quote_byte, is_word_byte as is_byte_of_word};

pub fn is_blank(byte: u8) -> bool
    ensures { result ≡ is_blank_byte byte }
{
    byte == b' ' || byte == b'\t'
}

fn is_printable(byte: u8) -> bool
    ensures { result ≡ is_printable_byte byte }
{
    32 <= byte && byte <= 126
}

/// Whether each byte is a character that may stand in quotes.
pub fn are_printable(text: &[u8]) -> bool
    ensures { result ≡ list_all is_printable_byte text.now }
{
    text.iter().all(|byte| is_printable(*byte))
}

pub fn is_quote(byte: u8) -> bool
    ensures { result ≡ is_quote_byte byte }
{
    byte == b'\'' || byte == b'"'
}

pub fn is_word_byte(byte: u8) -> bool
    ensures { result ≡ is_byte_of_word byte }
{
    byte.is_ascii_alphabetic() || byte.is_ascii_digit()
}

pub fn begins_with(byte: u8, text: &[u8]) -> bool
    ensures { result ≡ begins_with_byte byte text.now }
{
    match text {
        [] => false,
        [first, ..] => *first == byte,
    }
}

/// Whether a line ends where the text begins.
pub fn is_line_end(text: &[u8]) -> bool
    ensures { result ≡ is_line_end_at text.now }
{
    match text {
        [] => true,
        [first, rest @ ..] => *first == b'\n' || *first == b'\r' && begins_with(b'\n', rest),
    }
}

/// How many blanks a text begins with.
pub fn count_blanks(text: &[u8]) -> usize
    ensures count { result ≡ prefix_len is_blank_byte text.now }
    ensures in_range { result ≤ length text.now }
{
    text.iter().take_while(|byte| is_blank(**byte)).count()
}

/// The bytes of a text from a place on.
pub fn rest_from(text: &[u8], at: usize) -> &[u8]
    ensures { result.now ≡ drop at text.now }
{
    if at <= text.len() { &text[at..] } else { &[] }
}
