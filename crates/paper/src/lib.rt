// The CAIF paper's lemmas and its rules of service life, of the box in crate ideal. There is no code here: see specs/.

#![tactic(auto)]
