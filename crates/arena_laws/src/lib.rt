// No code: the laws of the arena's steps. Everything is in specs/.
#![tactic(auto)]
