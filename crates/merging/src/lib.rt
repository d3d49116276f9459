// Theorems about the merged object of a partial: see specs/.
#![tactic(auto)]
