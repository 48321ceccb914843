// No code: histories of calls, and the demands as theorems. Everything is in specs/.
#![tactic(auto)]
