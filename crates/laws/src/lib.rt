// Laws that know nothing of a board, for the crates above. There is no code here.
#![tactic(auto)]
