// A law of what units say. The function does nothing: its contract is the law.
ghost use Rattle.rat_link.specs.Laws.{SaidIsReady};

/// What a unit says that its checks accept is ready for its association (X3.9-1966, sections 7.2.1.3, 7.2.1.4 and 10.1).
pub fn said_is_ready()
    ensures { SaidIsReady }
{}
