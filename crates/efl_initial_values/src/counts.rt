// How many values presets give, up to one more than a program may give.
ghost use Rattle.std.specs.Prelude.{◌≡◌, ℕ, ◌+◌, nat_lt, ◌&&◌, map, sum, sum_by};
ghost use Rattle.efl_tree.specs.Views.{preset_of};
ghost use Rattle.efl_types.specs.Presets.{many_values};
ghost use Rattle.efl_scoped.specs.Told.{capped};

use crate::subscripts::{LIMIT, add};
use efl_tree::{EflConst, EflPreset};

/// How many values stand in a list with their counts.
pub fn count_values(values: &[(u32, EflConst)]) -> u64
    ensures { result ≡ capped (sum_by (λ c. c.0) values.now) }
{
    let mut count: u64 = 0;
    for value in values {
        count = add(count, count_of(*value));
    }
    count.min(LIMIT)
}

fn count_of(value: (u32, EflConst)) -> u64
    ensures { result ≡ value.0 }
{
    u64::from(value.0)
}

/// How many values the presets of a declaration give.
pub fn count_presets(presets: &[EflPreset]) -> u64
    ensures { result ≡ capped (sum (map many_values (map preset_of presets.now))) }
{
    let mut count: u64 = 0;
    for preset in presets {
        count = add(count, count_values(&preset.values));
    }
    count.min(LIMIT)
}

/// Whether the values of a program pass their limit where so many more are given.
pub fn passes_limit(before: u64, more: u64) -> bool
    ensures { (m n : ℕ) → before ≡ capped m → more ≡ capped n → result ≡ (nat_lt 0 n && nat_lt 32767 (m + n)) }
{
    is_passed(more, add(before, more))
}

fn is_passed(more: u64, all: u64) -> bool
    ensures { result ≡ (nat_lt 0 more && nat_lt 32767 all) }
{
    more > 0 && all > 32767
}
