//! What every other crate speaks of: the tokens that links and channel ends carry, what travels on a link, resource
//! identifiers, and a text that grows.
#![tactic(auto)]

mod batch;
mod entry;
mod ids;
pub mod numbers;
mod text;
mod token;
mod words;

pub use batch::Batch;
pub use entry::{Entry, What};
pub use ids::{chan_id, port_id, port_named, port_of, port_width, res_id};
pub use text::Text;
pub use token::Token;
pub use words::{
    add_carry, ashr, bitrev, byterev, clz, div_long, mkmsk, mul_long, sext, shl, shr, sub_borrow,
    zext,
};
