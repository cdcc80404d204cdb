// Definitions and facts that every layer cites: in specs/ and proofs/. There is no code here.
#![tactic(auto)]
