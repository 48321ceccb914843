// No code: remove on an accepted image. Everything is in specs/.
#![tactic(auto)]
