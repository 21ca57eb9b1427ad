// Theorems about the definitions of the crate model: walks, arrivals, and the lists that they go over. Nothing runs here.
#![tactic(auto)]
