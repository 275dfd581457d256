// Theory alone: what the definitions give at the arguments of docs/PROMISES.md stands in proofs/, and no function needs it to run.
#![tactic(auto)]
