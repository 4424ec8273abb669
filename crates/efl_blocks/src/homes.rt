// Where in its procedure the block stands that declares a variable.
ghost use Rattle.std.specs.Prelude.{◌≡◌, option_map};
ghost use Rattle.efl_blocks.specs.HomeViews.{position_of, home_in, home_by};

use efl_expressions::{Block, Meaning};

/// Where a part stands in its procedure: its number in each list and each `if .. else` around it, from the inside.
#[derive(Clone, Copy, Drop)]
pub enum Position<'p> {
    Top,
    Inside(usize, &'p Position<'p>),
}

/// The blocks around a part, from the inside out, with where each stands.
#[derive(Clone, Copy, Drop)]
pub enum Homes<'c, 'a> {
    Outside,
    Inside(&'c Position<'c>, &'c Block<'a>, &'c Homes<'c, 'a>),
}

/// Where the block stands that declares a variable; none where no block does, or where the innermost meaning of the name is a structure.
pub fn home_of<'c, 'a>(homes: &Homes<'c, 'a>, name: &[u8]) -> Option<&'c Position<'c>>
    ensures { option_map (λ p. position_of p.now) result ≡ home_in homes.now name.now }
{
    match homes {
        Homes::Outside => None,
        Homes::Inside(position, block, outside) => match block.table.get(name) {
            None => home_of(outside, name),
            Some(meaning) => home_as(position, meaning),
        },
    }
}

/// The place of a block in which a name has this meaning.
fn home_as<'c, 'a>(position: &'c Position<'c>, meaning: &Meaning<'a>) -> Option<&'c Position<'c>>
    ensures { option_map (λ p. position_of p.now) result ≡ home_by (position_of position.now) meaning.now }
{
    match meaning {
        Meaning::Variable(_) => Some(position),
        Meaning::Structure(_) => None,
    }
}
