// No code: start and the value write on blank and accepted images. Everything is in specs/.
#![tactic(auto)]
