// The key directory, which stands for the FST: its bytes, and what is read in them.
#![tactic(auto)]
