// Theory alone: the table of 01's twelve stands in specs/, its one theorem in proofs/, and no function needs them to run.
#![tactic(auto)]
