// Tables whose rows stand behind one another in one list.

ghost use Rattle.std.specs.Prelude.{◌≡◌, IsTrue};
ghost use Rattle.grammar.specs.Rows.{has_row, row_of};

/// The row at an index, by where each row begins and the last ends.
pub fn row<'a, T>(all: &'a [T], starts: &[usize], index: usize) -> &'a [T]
    requires { IsTrue (has_row all.now starts.now index) }
    ensures { result.now ≡ row_of all.now starts.now index }
{
    &all[starts[index]..starts[index + 1]]
}
