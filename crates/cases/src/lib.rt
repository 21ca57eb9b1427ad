// Worked cases of the definitions that no must-fail edit of the crate model needs: they stand here so that the checks of those edits do not compute them.
// Nothing runs here.
#![tactic(auto)]
