// What a lookup finds in a written format 12 subtable: definitions and laws, no code.
#![tactic(auto)]
