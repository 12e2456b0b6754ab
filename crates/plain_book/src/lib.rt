// The plain book (FORMAT, The plain book): definitions of what an account book answers, with laws about them, and no code.
#![tactic(auto)]
