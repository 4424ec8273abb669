// Laws of units with a spare variable. The functions do nothing: their contracts are the laws.
ghost use Rattle.spared_units.specs.Laws.{SparedIsWell, SparedIsWhole, TwinsLink};

/// A unit that says what another says, but for a spare variable, has a good association where the other has
/// (X3.9-1966, sections 7.2.1.3 and 7.2.1.4).
pub fn spared_is_well()
    ensures { SparedIsWell }
{}

/// A program of such units is whole where that of the others is, and there is room for one variable more in each unit.
pub fn spared_is_whole()
    ensures { SparedIsWhole }
{}

/// A program of units that say what those of a program that links say links too, and has as many storage units.
pub fn twins_link()
    ensures { TwinsLink }
{}
