// The worked cases of document 01, as one statement: in specs/ and proofs/. There is no code here.
#![tactic(auto)]
