// Laws of the tables. The functions do nothing: their contracts are the laws.
ghost use Rattle.storage_assoc.specs.Naming.{ListsServe};

/// A list of a unit's blocks and names is the table of its names, where the unit is as a checked one.
pub fn lists_serve()
    ensures { ListsServe }
{}
