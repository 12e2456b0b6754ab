// Streams, slab payloads and pages that cannot be mistaken for those of another list: definitions and theorems, and no code.
#![tactic(auto)]
