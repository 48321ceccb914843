// No code: the full check accepts exactly the accepted images. Everything is in specs/.
#![tactic(auto)]
