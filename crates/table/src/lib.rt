// No code: document 01's table of small puzzles, computed over the definitions that the contracts of the C entries cite.
#![tactic(auto)]
