// The demands, said of every history of the two areas: specs/ has the statements, proofs/ their proofs.
#![tactic(auto)]
