// Loading a list onto an empty key (FORMAT, Load). Nothing is allocated, and a refused load leaves everything as it was.
#![tactic(auto)]

mod loading;

pub use loading::load;
