// No code: cases C1 to C10 of docs/RULES.md as one table, and the definitions give what it says.
#![tactic(auto)]
