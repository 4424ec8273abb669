// Which names of the source may stand in a unit of FORTRAN.
ghost use Rattle.std.specs.Prelude.{◌≡◌};
ghost use Rattle.std.specs.List.{list_all};
ghost use Rattle.efl_naming.specs.Choice.{is_digit, is_intrinsic, is_kept, is_made};

/// Whether a name of the source may stand in a unit.
pub fn is_kept(name: &[u8]) -> bool
    ensures { result ≡ is_kept name.now }
{
    name.len() <= 6 && !(is_intrinsic(name) || is_made(name))
}

// Whether it is the name of an intrinsic function that expressions become.
fn is_intrinsic(name: &[u8]) -> bool
    ensures { result ≡ is_intrinsic name.now }
{
    name == b"IABS".as_slice()
        || (name == b"MOD".as_slice()
            || (name == b"ISIGN".as_slice()
                || (name == b"IDIM".as_slice()
                    || (name == b"MAX0".as_slice() || name == b"MIN0".as_slice()))))
}

// Whether it is such a name as is made.
fn is_made(name: &[u8]) -> bool
    ensures { result ≡ is_made name.now }
{
    match name.split_first() {
        None => false,
        Some((letter, digits)) => {
            (b'X' <= *letter && *letter <= b'Z') && (digits.len() == 5 && are_digits(digits))
        }
    }
}

fn are_digits(text: &[u8]) -> bool
    ensures { result ≡ list_all is_digit text.now }
{
    text.iter().all(|c| is_digit(*c))
}

fn is_digit(c: u8) -> bool
    ensures { result ≡ is_digit c }
{
    b'0' <= c && c <= b'9'
}
