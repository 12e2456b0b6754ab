// The limits of an account book's body and heads (FORMAT, Limits): definitions and laws, no code.
#![tactic(auto)]
