// The law of the crate, as the contract of a function that does nothing.
ghost use Rattle.steal_workers.specs.Laws.{OneAnswer};

/// The law that any two calls of `settle_all` on one network give the same flags, whatever the number of
/// workers, the dealing and the gate of each: there is one list of flags of which its clauses `one_each` and
/// `live` are true. It does nothing: its contract says so.
pub fn settled_law()
    ensures { OneAnswer }
{}
