// What the calls promise, as theorems of the calls themselves: see specs/.
#![tactic(auto)]
