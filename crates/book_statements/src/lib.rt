// What is said of every account book, by its calls and their answers alone: what is recorded, the licence's sentence, the count of moves.
#![tactic(auto)]
