// A law of formatted editing. The function does nothing: its contract is the law.
ghost use Rattle.format_io.specs.Laws.{EditingIsItsList};

/// A READ or WRITE does what the one list of edits and record ends for its format and its number of items says.
pub fn editing_is_its_list()
    ensures { EditingIsItsList }
{}
