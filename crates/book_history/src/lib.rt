// The book over bytes answers like the plain book, on every list of calls.
#![tactic(auto)]
