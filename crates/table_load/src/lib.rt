//! Saved texts to tables: [`load::load`] makes the table that a text was written of.
//!
//! What the text says is put into an empty store, which then has the state of the text ([`table_build`]). Then it is
//! decided whether that is sound ([`sound_store`]). Each table that was dumped is loaded, where there is memory:
//! [`laws::what_is_dumped_is_loaded`].
#![tactic(auto)]

mod below;
pub mod fault;
mod flaws;
pub mod laws;
pub mod load;
