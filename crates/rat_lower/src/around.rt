// The loops around a statement.
ghost use Rattle.std.specs.Prelude.{◌≡◌};
ghost use Rattle.rat_lower.specs.Around.{rings_of};
ghost use Rattle.rat_lower.specs.Code.{label_behind, label_again};

/// The loops around a statement, from the inside out: the label behind each, and the label of its next turn.
#[derive(Clone, Copy, Drop)]
pub enum Around<'a> {
    Outside,
    Loop(u32, u32, &'a Around<'a>),
}

/// The label behind the loop at this depth from the inside, and 0 where there is none.
pub fn label_behind(around: &Around, depth: u32) -> u32
    ensures { result ≡ label_behind (rings_of around.now) depth }
{
    match around {
        Around::Outside => 0,
        Around::Loop(behind, _, outside) => {
            if depth == 0 {
                *behind
            } else {
                label_behind(outside, depth - 1)
            }
        }
    }
}

/// The label of the next turn of the loop at this depth, and 0 where there is none.
pub fn label_again(around: &Around, depth: u32) -> u32
    ensures { result ≡ label_again (rings_of around.now) depth }
{
    match around {
        Around::Outside => 0,
        Around::Loop(_, again, outside) => {
            if depth == 0 {
                *again
            } else {
                label_again(outside, depth - 1)
            }
        }
    }
}
