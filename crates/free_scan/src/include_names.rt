// Include lines: the word that makes a line one, and the file's name on it.
ghost use Rattle.std.specs.Prelude.{◌≡◌, ◌≤◌, length, reverse, None};
ghost use Rattle.std.specs.List.{prefix_len};
ghost use Rattle.free_scan.specs.Characters.{is_blank as is_blank_byte};
ghost use Rattle.free_scan.specs.Lexemes.{is_gap as is_gap_byte};
ghost use Rattle.free_scan.specs.IncludeNames.{are_pair as are_pair_of, begun as begun_of, file_name as file_name_of, include_word as include_word_of, is_comment as is_comment_byte, name_size as size_of_name, open_quote as open_quote_of, text_size as size_of_text, unwrapped as unwrapped_of, without_first_blanks as without_first_blanks_of, without_last_blanks as without_last_blanks_of};

use crate::characters::{count_blanks, is_blank, is_line_end, is_quote};
use crate::lexemes::{is_gap, word_size};
use crate::lines::Character;
use crate::spellings::is_spelled;

/// A line's characters from its first token on.
pub fn begun(characters: &[Character]) -> &[Character]
    ensures { result.now ≡ begun_of characters.now }
{
    &characters[count_gaps(characters)..]
}

fn count_gaps(characters: &[Character]) -> usize
    ensures count { result ≡ prefix_len (λ c. is_gap_byte c.byte) characters.now }
    ensures in_range { result ≤ length characters.now }
{
    characters.iter().take_while(|c| is_gap(c.byte)).count()
}

/// The first and the last character of the word `include`, if it begins here.
pub fn include_word(characters: &[Character]) -> Option<(Character, Character)>
    ensures { result ≡ include_word_of characters.now }
{
    if !is_spelled(b"include", characters) || word_size(characters) != 7 {
        return None;
    }
    let first = characters.first()?;
    let last = characters.get(6)?;
    Some((*first, *last))
}

fn text_size(text: &[u8]) -> usize
    ensures size { result ≡ size_of_text text.now }
    ensures in_range { result ≤ length text.now }
{
    for i in 0..text.len() {
        if is_line_end(&text[i..]) {
            return i;
        }
    }
    text.len()
}

fn open_quote(opened: Option<u8>, byte: u8, rest: &[u8]) -> Option<u8>
    ensures { result ≡ open_quote_of opened byte rest.now }
{
    match opened {
        Some(quote) => { if byte == quote { None } else { Some(quote) } }
        None => {
            if is_quote(byte) && rest.contains(&byte) {
                Some(byte)
            } else {
                None
            }
        }
    }
}

fn is_comment(opened: Option<u8>, byte: u8) -> bool
    ensures { result ≡ is_comment_byte opened byte }
{
    match opened {
        Some(_) => false,
        None => byte == b'#',
    }
}

fn name_size(rest: &[u8]) -> usize
    ensures size { result ≡ size_of_name None rest.now }
    ensures in_range { result ≤ length rest.now }
{
    let mut opened = None;
    for (i, byte) in rest.iter().enumerate() {
        if is_comment(opened, *byte) {
            return i;
        }
        opened = open_quote(opened, *byte, &rest[i + 1..]);
    }
    rest.len()
}

fn without_first_blanks(name: &[u8]) -> &[u8]
    ensures { result.now ≡ without_first_blanks_of name.now }
{
    &name[count_blanks(name)..]
}

fn without_last_blanks(name: &[u8]) -> &[u8]
    ensures { result.now ≡ without_last_blanks_of name.now }
{
    &name[..name.len() - count_last_blanks(name)]
}

fn count_last_blanks(name: &[u8]) -> usize
    ensures count { result ≡ prefix_len is_blank_byte (reverse name.now) }
    ensures in_range { result ≤ length name.now }
{
    name.iter()
        .rev()
        .take_while(|byte| is_blank(**byte))
        .count()
}

fn are_pair(first: u8, last: u8) -> bool
    ensures { result ≡ are_pair_of first last }
{
    is_quote(first) && last == first || first == b'(' && last == b')'
}

fn unwrapped(name: &[u8]) -> &[u8]
    ensures { result.now ≡ unwrapped_of name.now }
{
    let size = name.len();
    if size >= 2 && are_pair(name[0], name[size - 1]) {
        &name[1..size - 1]
    } else {
        name
    }
}

/// The file's name, where the word `include` stands before the text.
pub fn file_name(text: &[u8]) -> &[u8]
    ensures { result.now ≡ file_name_of text.now }
{
    let rest = &text[..text_size(text)];
    unwrapped(without_last_blanks(without_first_blanks(&rest[..name_size(rest)])))
}
