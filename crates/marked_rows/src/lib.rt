// Document 01's rows marked P: specs/MarkedRows.antt has them as one theorem about the definitions.
#![tactic(auto)]
