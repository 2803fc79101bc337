// Searches in lists, and tests of what is in them. There is no code here: see specs/.

#![tactic(auto)]
