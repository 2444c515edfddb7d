// No code: that the text of a read, as `ecigar` writes it, is the one that Tables 92 to 94 make (specs/Table92 to Table94), and what is known of it.
#![tactic(auto)]
