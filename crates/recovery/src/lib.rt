// Theory alone: what is promised of the plan that gets a cluster going again stands in specs/, its proof in proofs/, and no function needs them to run.
#![tactic(auto)]
