//! Cuts a source into its tokens, or names the first rule of tokens that it breaks and the place.
//! It depends on `parse_tree`, whose `Tokens` it makes. `Texts` in specs/ says which tokens a text
//! has and where it breaks a rule; the layer above needs the source no more.
#![tactic(auto)]

mod bytes;
mod form;
mod gap;
pub mod laws;
mod meaning;
mod misfit;
mod number;
mod place;
mod source;
mod word;

pub use form::Form;
pub use source::{LexRefusal, lex};
