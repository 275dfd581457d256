// What every room stands on: definitions over numbers and lists, and their laws. No code.
#![tactic(auto)]
