// No code: insert on an accepted image. Everything is in specs/.
#![tactic(auto)]
