// The types of names that no statement gives one.
ghost use Rattle.std.specs.Prelude.{◌≡◌};
ghost use Rattle.f66_tree.specs.Units.{by_header, by_letter};
ghost use Rattle.f66_tree.specs.Views.{header_of};

use f66_tree::{Header, Name, TypeWord};

/// The type of a name that no statement gives one.
pub(crate) fn by_header(header: &Header, name: &Name) -> TypeWord
    ensures { result ≡ by_header name.now (header_of header.now) }
{
    match header {
        Header::Func(Some(word), own, _) => {
            if name.is_same(own) {
                *word
            } else {
                by_letter(name)
            }
        }
        _ => by_letter(name),
    }
}

fn by_letter(name: &Name) -> TypeWord
    ensures { result ≡ by_letter name.now }
{
    match name.as_bytes() {
        [first, ..] => {
            if b'I' <= *first && *first <= b'N' {
                TypeWord::Integer
            } else {
                TypeWord::Other
            }
        }
        [] => TypeWord::Other,
    }
}
