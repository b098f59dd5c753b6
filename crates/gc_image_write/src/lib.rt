//! What saving an image is made of: the commands that declare a table's types, the order of its objects, and its text.
//!
//! It promises the order and the text of a graph of lines, and knows nothing of heaps and stores: what walks a store's
//! objects stands above.
#![tactic(auto)]

mod commands;
mod laws;
mod named;
mod numbering;
mod objects;
mod text;
mod type_words;
mod walk;

pub use commands::commands_of;
pub use laws::{
    a_text_in_turn_comes_back, an_order_goes_with_a_renaming, an_order_is_determined,
    an_order_stays,
};
pub use named::are_numbers_below;
pub use numbering::order_of;
pub use text::write_image;
