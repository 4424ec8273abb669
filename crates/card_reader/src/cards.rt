// What a card says by its columns.
ghost use Rattle.std.specs.Prelude.{◌≡◌, ◌+◌, ◌*◌, ◌≤◌, [], ◌∷◌, codes, length, slice_index_or, unwrap_or};
ghost use Rattle.std.specs.List.{list_all};
ghost use Rattle.arrayvec.specs.ArrayVec.{array_vec_len};
ghost use Rattle.card_reader.specs.Cards.{begins_with, card as card_columns, is_blank as is_blank_column, is_comment as is_comment_card, is_continuation as is_continuation_card, is_end_line as is_end_line_card, is_label_column as is_column_of_label, is_printable as is_printable_column, is_spread as spread, kind_of as kind_of_card, label_after, label_of as label_of_card};

use arrayvec::ArrayVec;

/// The columns of a card that count.
const COLUMNS: usize = 72;

/// What a card is.
#[derive(Clone, Copy)]
pub enum CardKind {
    /// It breaks the rules on columns by itself.
    Wrong,
    Comment,
    Continuation,
    /// An END line.
    Ending,
    /// The first card of a statement, with the statement's label.
    Initial(Option<u32>),
}

/// The columns of a line, which is extended by blanks.
pub fn card(line: &[u8]) -> ArrayVec<u8, 72>
    ensures columns { result.items ≡ card_columns line.now }
    ensures size { length result.items ≡ 72 }
{
    let mut columns = ArrayVec::new();
    for i in 0..COLUMNS {
        columns.push(column(line, i));
    }
    columns
}

fn column(line: &[u8], i: usize) -> u8
    ensures { result ≡ slice_index_or line.now i 32 }
{
    if i < line.len() { line[i] } else { b' ' }
}

/// What the card with these columns is.
pub fn kind_of(columns: &[u8]) -> CardKind
    requires { length columns.now ≡ 72 }
    ensures { result ≡ kind_of_card columns.now }
{
    if !are_printable(columns) {
        CardKind::Wrong
    } else if is_comment(columns) {
        CardKind::Comment
    } else if is_continuation(columns) {
        CardKind::Continuation
    } else if is_end_line(columns) {
        CardKind::Ending
    } else if are_label_columns(&columns[..5]) {
        CardKind::Initial(label_of(columns))
    } else {
        CardKind::Wrong
    }
}

fn is_blank(c: u8) -> bool
    ensures { result ≡ is_blank_column c }
{
    c == b' '
}

fn is_printable(c: u8) -> bool
    ensures { result ≡ is_printable_column c }
{
    32 <= c && c <= 126
}

fn are_printable(columns: &[u8]) -> bool
    ensures { result ≡ list_all is_printable_column columns.now }
{
    columns.iter().all(|c| is_printable(*c))
}

fn is_label_column(c: u8) -> bool
    ensures { result ≡ is_column_of_label c }
{
    c == b' ' || b'0' <= c && c <= b'9'
}

fn are_label_columns(columns: &[u8]) -> bool
    ensures { result ≡ list_all is_column_of_label columns.now }
{
    columns.iter().all(|c| is_label_column(*c))
}

fn is_comment(columns: &[u8]) -> bool
    ensures { result ≡ is_comment_card columns.now }
{
    begins_with_c(columns) || are_blank(columns)
}

fn are_blank(columns: &[u8]) -> bool
    ensures { result ≡ list_all is_blank_column columns.now }
{
    columns.iter().all(|c| is_blank(*c))
}

fn begins_with_c(columns: &[u8]) -> bool
    ensures { result ≡ begins_with 67 columns.now }
{
    match columns {
        [] => false,
        [first, ..] => *first == b'C',
    }
}

fn is_continuation(columns: &[u8]) -> bool
    requires { length columns.now ≡ 72 }
    ensures { result ≡ is_continuation_card columns.now }
{
    let mark = columns[5];
    !(mark == b' ' || mark == b'0')
}

fn is_end_line(columns: &[u8]) -> bool
    requires { length columns.now ≡ 72 }
    ensures { result ≡ is_end_line_card columns.now }
{
    are_blank(&columns[..6]) && is_spread(b"END", &columns[6..])
}

/// Whether these characters, and no others but blanks, stand here in order.
fn is_spread(wanted: &[u8], columns: &[u8]) -> bool
    ensures { result ≡ spread wanted.now columns.now }
{
    match columns {
        [] => wanted.is_empty(),
        [c, rest @ ..] => {
            if *c == b' ' {
                return is_spread(wanted, rest);
            }
            match wanted {
                [] => false,
                [first, others @ ..] => *c == *first && is_spread(others, rest),
            }
        }
    }
}

fn label_of(columns: &[u8]) -> Option<u32>
    requires { length columns.now ≡ 72 }
    ensures { result ≡ label_of_card columns.now }
{
    let label = next_label(None, columns[0]);
    let label = next_label(label, columns[1]);
    let label = next_label(label, columns[2]);
    let label = next_label(label, columns[3]);
    next_label(label, columns[4])
}

/// The number so far, with one more column.
fn next_label(label: Option<u32>, column: u8) -> Option<u32>
    requires { unwrap_or label 0 ≤ 400000000 }
    ensures label { result ≡ label_after label (column ∷ []) }
    ensures bound { unwrap_or result 0 ≤ 10 * unwrap_or label 0 + 255 }
{
    if column == b' ' {
        return label;
    }
    let digit = u32::from(column.saturating_sub(b'0'));
    Some(10 * label.unwrap_or(0) + digit)
}
