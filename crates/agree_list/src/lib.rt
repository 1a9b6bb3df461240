// No code: writing a whole list at once answers and leaves what adding its entries in turn and then serialising does.
#![tactic(auto)]
