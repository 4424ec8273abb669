//! The initial values of EFL: which place of its variable a preset begins at, whether its values fit, the first rule that it breaks, which
//! places it fills, and whether an earlier one filled them.
#![tactic(auto)]

mod areas;
mod counts;
mod fills;
mod offsets;
mod owners;
mod presets;
mod subscripts;
mod values;
mod variables;

pub use areas::{Areas, Shared, areas_of};
pub use counts::{count_presets, count_values, passes_limit};
pub use fills::{Fills, Range, filled};
pub use offsets::offset;
pub use presets::preset_rule;
pub use values::misfits;
pub use variables::{may_begin, number_owner};
