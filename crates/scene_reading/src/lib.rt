// What an accepted text says: the scene in the table and the store that the reader leaves.
#![tactic(auto)]
