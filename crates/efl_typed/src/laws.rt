// Laws of what accepted EFL texts mean. The functions do nothing: their contracts are the laws.
ghost use Rattle.efl_typed.specs.Laws.{AcceptedIsScoped, AcceptedNeverLost};
ghost use Rattle.efl_typed.specs.Layout.{PathsHaveTheirNumbers};
ghost use Rattle.efl_typed.specs.PlacePaths.{PlacesHaveTheirNumbers};

/// Each jump, `break` and `next` of a text whose scopes have no fault has where to go, and its calls go down.
pub fn accepted_is_scoped()
    ensures { AcceptedIsScoped }
{}

/// A text that the checks accept means something over any input at every bound.
pub fn accepted_never_lost()
    ensures { AcceptedNeverLost }
{}

/// A sort has as many paths as places, and the k-th of them, as they are listed, is k places on from the first.
pub fn paths_have_their_numbers()
    ensures { PathsHaveTheirNumbers }
{}

/// A scalar to which the checks give the number k, by members and constant subscripts, has the k-th path in its variable's list.
pub fn places_have_their_numbers()
    ensures { PlacesHaveTheirNumbers }
{}
