// Lists of calls on an account book and of their answers, spelled as words: definitions, with laws about them, and no code.
#![tactic(auto)]
