// Theory alone: the page of claims stands in proofs/, and no function needs it to run.
#![tactic(auto)]
