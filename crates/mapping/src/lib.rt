// What pages are, what a search for mapped runs answers, and what lists of searches promise: in specs/ and proofs/. There is no code here.
#![tactic(auto)]
