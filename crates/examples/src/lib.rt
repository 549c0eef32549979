// Document 01's numbered examples: a table and one statement about it (specs/); there is no code.
#![tactic(auto)]
