// Names and labels that no unit of a source has.
ghost use Rattle.std.specs.Prelude.{◌≡◌, ◌+◌, ◌<◌, ◌≤◌, length, false, OnOk, OnErr, IfOk, if◌then◌else◌};
ghost use Rattle.name_alloc.specs.Numbers.{is_in, next_number, making};
ghost use Rattle.name_alloc.specs.MadeNames.{is_used, is_free, next_name, keeping, naming, labelling};

use f66_tree::Name;
use ground::{Memory, Text};
use name_alloc::Names;

/// Keeps a free name of at most six characters, and else makes one.
pub fn kept_or_made(names: &mut Names, name: &Text) -> Result<Name, Memory>
    requires { length names.old.numbers.made + length names.old.kept < 99999 }
    ensures name { IfOk result (λ answer. answer ≡ (if is_free names.old name.now then name.now else next_name names.old)) }
    ensures fresh { IfOk result (λ answer. is_used names.old answer ≡ false) }
    ensures used { OnOk result (names.new ≡ (if is_free names.old name.now then keeping names.old name.now else naming names.old)) }
    ensures kept { OnErr result (names.new ≡ names.old) }
{
    names.keep_or_rename(name)
}

/// The next label that no statement of the source has.
pub fn made_label(names: &mut Names) -> Result<u32, Memory>
    requires { length names.old.labels.made + length names.old.labels.taken < 77000 }
    ensures label { IfOk result (λ label. label ≡ next_number names.old.labels) }
    ensures fresh { IfOk result (λ label. (is_in names.old.labels.taken label ≡ false) × (is_in names.old.labels.made label ≡ false)) }
    ensures limit { IfOk result (λ label. label ≤ 99999) }
    ensures made { OnOk result (names.new ≡ labelling names.old (making names.old.labels)) }
    ensures kept { OnErr result (names.new ≡ names.old) }
{
    names.fresh_label()
}
