//! What the law sees of the blocks of a table, and that lists which change as the calls change them keep the law.
#![tactic(auto)]
