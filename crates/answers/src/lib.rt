// The second table of cases: what the rules answer to questions of our own is what the second program answers. Nothing to run.
#![tactic(auto)]
