// No code: the rules of an image, and what they give. Everything is in specs/.
#![tactic(auto)]
