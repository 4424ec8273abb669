// What a layout has of what is asked where code is made.
ghost use Rattle.code_emit.specs.Laws.{LayoutIsReady};

/// Distinct units that are laid out, with their formats numbered as they stand, are entered and planned as `code_program` asks. The
/// function does nothing: its contract is the law.
pub fn layout_is_ready()
    ensures { LayoutIsReady }
{}
