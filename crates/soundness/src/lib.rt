// The soundness test as the code makes it, part by part, as definitions and laws: see specs/. There is no code here.

#![tactic(auto)]
