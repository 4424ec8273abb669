// The law of the lines of routes. The function does nothing: its contract is the law.
ghost use Rattle.routes.specs.Laws.{UnitsReachRoutes};

/// Linked units whose statements are those of routes, each label of which leads to its place, do what the routes do: they
/// write the same records and end in the same way, and begin no more statements than the routes count.
pub fn units_reach_routes()
    ensures { UnitsReachRoutes }
{}
