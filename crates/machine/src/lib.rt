// Document 01's plain machine, and what lists of calls on a builder leave, as theorems about the calls' definitions. No code of its own.
#![tactic(auto)]
