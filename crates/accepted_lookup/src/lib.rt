// No code: the descents, get, contains, get_addr, smallest and largest on an accepted image answer as its ascending list does. Everything is in specs/.
#![tactic(auto)]
