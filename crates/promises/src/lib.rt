// Theory alone: what is promised of every run stands in specs/, a file a promise, its proof in proofs/, and no function needs them to run.
#![tactic(auto)]
