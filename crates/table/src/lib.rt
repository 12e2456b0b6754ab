// The proved table of specimens: equations about the definitions of specs/, and no code.
#![tactic(auto)]
