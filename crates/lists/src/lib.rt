// No code: the ascending list and its own machine, by which the map's calls are judged. Everything is in specs/.
#![tactic(auto)]
