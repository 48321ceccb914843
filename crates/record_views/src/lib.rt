// No code: what the records of an image are after a part of one is stored. Everything is in specs/.
#![tactic(auto)]
