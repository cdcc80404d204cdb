// What an entry's word says, where the tables in lent words are, and what translation, the run search and lists of searches answer: in specs/, with the laws in proofs/. There is no code here.
#![tactic(auto)]
