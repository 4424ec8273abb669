// The intrinsic functions.
ghost use Rattle.std.specs.Prelude.{◌≡◌, option_map};
ghost use Rattle.std.specs.Str.{bytes_eq};
ghost use Rattle.efl_types.specs.Signatures.{known as known_seen, takes as takes_seen};
ghost use Rattle.efl_expressions.specs.Forms.{arity_of};

/// How many arguments an intrinsic function takes.
#[derive(Clone, Copy)]
pub enum Arity {
    One,
    Two,
    TwoOrMore,
}

/// The intrinsic function of a name, all of integers.
pub fn known(name: &[u8]) -> Option<Arity>
    ensures { option_map arity_of result ≡ known_seen name.now }
{
    if is_text(name, b"ABS") {
        Some(Arity::One)
    } else if is_text(name, b"MOD") || is_text(name, b"SIGN") {
        Some(Arity::Two)
    } else if is_text(name, b"MIN") || is_text(name, b"MAX") {
        Some(Arity::TwoOrMore)
    } else {
        None
    }
}

fn is_text(name: &[u8], text: &[u8]) -> bool
    ensures { result ≡ bytes_eq name.now text.now }
{
    name == text
}

/// Whether it takes so many.
pub fn takes(arity: Arity, count: usize) -> bool
    ensures { result ≡ takes_seen (arity_of arity) count }
{
    match arity {
        Arity::One => count == 1,
        Arity::Two => count == 2,
        Arity::TwoOrMore => 2 <= count,
    }
}
