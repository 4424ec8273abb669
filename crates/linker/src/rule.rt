// Which rule on calls is asked.

/// A rule on each call: the unit that is called is there; there are as many actuals as dummies.
#[derive(Clone, Copy)]
pub enum CallRule {
    Missing,
    Counted,
}
