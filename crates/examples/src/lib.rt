// Worked examples of the rules: specs/ computes them.
#![tactic(auto)]
