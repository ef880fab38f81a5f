//! Pages of lists: the first entries of a listing, the tree of a page, and the token of what follows.

mod first;
mod keys;
mod page;
mod token;

pub use first::first_called;
pub use keys::{into_token, out_token};
pub use page::page_tree;
pub use token::token_text;
