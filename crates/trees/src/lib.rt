// Crit-bit trees of keys, and the ascending lists that they stand for: theory, with no code.
#![tactic(auto)]
