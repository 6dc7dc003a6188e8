// A written index opens and is read back, whatever slopes were chosen: theorems about the index's definitions. No code of its own.
#![tactic(auto)]
