// Sequences of records' indexes, and those whose script a fresh box accepts, as definitions and laws: see specs/. There is no
// code here.

#![tactic(auto)]
