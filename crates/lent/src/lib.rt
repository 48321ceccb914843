// No code: the demands over the bytes that the calls are lent. Everything is in specs/.
#![tactic(auto)]
