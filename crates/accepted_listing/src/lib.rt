// No code: a listing on an accepted image. Everything is in specs/.
#![tactic(auto)]
