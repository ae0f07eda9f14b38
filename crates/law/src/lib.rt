//! The law of the rundown, above the blocks: what a run of calls makes of the plain lists, and that faces hold just that.
#![tactic(auto)]

ghost use Rattle.law.specs.Laws.{Laws};

/// Every theorem of this crate: its contract is all of them, so that the crate is proved only if each is.
pub fn laws_stand()
    ensures { Laws }
{}
