// Walks by hand over what a host lends, for every kind of row and count of rows. There is no code here: see proofs/.

#![tactic(auto)]
