// Two truths as one.
ghost use Rattle.std.specs.Prelude.{◌≡◌, ◌||◌, ◌&&◌};

pub fn is_either(one: bool, other: bool) -> bool
    ensures { result ≡ (one || other) }
{
    one || other
}

pub fn are_both(one: bool, other: bool) -> bool
    ensures { result ≡ (one && other) }
{
    one && other
}
