// No code: what a picture is, and what the clauses of a puzzle say about it.
#![tactic(auto)]
