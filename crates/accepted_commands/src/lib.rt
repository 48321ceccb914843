// No code: the command program is the list. Everything is in specs/.
#![tactic(auto)]
