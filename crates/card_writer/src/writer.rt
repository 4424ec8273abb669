// The cards of a statement.
ghost use Rattle.std.specs.Prelude.{◌≡◌, ◌+◌, ◌*◌, ◌≤◌, ◌<◌, ◌++◌, ◌∷◌, [], length, OnOk, OnErr};
ghost use Rattle.arrayvec.specs.ArrayVec.{array_vec_len};
ghost use Rattle.card_writer.specs.Cards.{cards, columns, continuation_front, label_column as column_of_label, label_field, mark as mark_of};

use arrayvec::ArrayVec;
use ground::Memory;

/// The columns of a statement's text on a card.
const TEXT_COLUMNS: usize = 66;

/// The cards of a statement: at most twenty of 72 columns, each with its byte 10.
type Cards = ArrayVec<u8, 1460>;

/// Adds the cards of one statement. Label 0 stands for no label.
pub fn cards_of(label: u32, text: &[u8], out: &mut Vec<u8>) -> Result<(), Memory>
    requires label { label ≤ 99999 }
    requires size { length text.now ≤ 1320 }
    ensures ok { OnOk result (out.new.items ≡ out.old.items ++ cards label text.now) }
    ensures err { OnErr result (out.new.items ≡ out.old.items) }
{
    let mut made = Cards::new();
    push_label(&mut made, label);
    made.push(b' ');
    push_text(&mut made, text);
    out.extend_from_slice(&made)?;
    Ok(())
}

fn push_label(made: &mut Cards, label: u32)
    requires label { label ≤ 99999 }
    requires empty { array_vec_len made.old ≡ 0 }
    ensures items { made.new.items ≡ made.old.items ++ label_field label }
    ensures len { array_vec_len made.new ≡ 5 }
{
    made.push(label_column(label, 10000));
    made.push(label_column(label, 1000));
    made.push(label_column(label, 100));
    made.push(label_column(label, 10));
    made.push(label_column(label, 1));
}

fn label_column(label: u32, power: u32) -> u8
    requires { 0 < power }
    ensures { result ≡ column_of_label label power }
{
    if label < power {
        b' '
    } else {
        b'0' + (label / power % 10) as u8
    }
}

fn push_text(made: &mut Cards, text: &[u8])
    requires size { length text.now ≤ 1320 }
    requires front { array_vec_len made.old ≡ 6 }
    ensures { made.new.items ≡ made.old.items ++ columns 66 1 text.now }
{
    let mut left = TEXT_COLUMNS;
    let mut next = 1;
    for c in text {
        if left == 0 {
            push_front(made, next);
            left = TEXT_COLUMNS;
            next += 1;
        }
        made.push(*c);
        left -= 1;
    }
    made.push(b'\n');
}

/// Ends a card, and begins the continuation of this number.
fn push_front(made: &mut Cards, next: u8)
    requires next { next < 100 }
    requires room { array_vec_len made.old ≤ 1453 }
    ensures items { made.new.items ≡ made.old.items ++ 10 ∷ continuation_front next }
    ensures len { array_vec_len made.new ≡ array_vec_len made.old + 7 }
{
    made.push(b'\n');
    made.push(b' ');
    made.push(b' ');
    made.push(b' ');
    made.push(b' ');
    made.push(b' ');
    made.push(mark(next));
}

fn mark(next: u8) -> u8
    requires { next < 100 }
    ensures { result ≡ mark_of next }
{
    if next < 10 { b'0' + next } else { 55 + next }
}
