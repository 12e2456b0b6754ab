// The static library: what C and other languages call. Its functions are those of crate ouriscado, with the same clauses.
#![tactic(auto)]

mod account_book;
mod account_core;
mod account_extend;
mod account_length;
mod class;
mod cut;
mod free;
mod head;
mod page_entries;
mod page_fields;
mod page_pack;
mod sizes;
mod slab;
mod stream;
mod uleb128;
