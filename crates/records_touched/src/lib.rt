// No code: what each call rewrites. Everything is in specs/.
#![tactic(auto)]
