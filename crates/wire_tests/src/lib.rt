//! Tests of the crates of the protocol, from pixel formats up to screens; the canvas that they paint
//! on; data of rectangles, judged, painted, and judged in pieces; and writers of messages.
#![tactic(auto)]

mod data;
mod pieces;
mod test_canvas;
mod writers;

pub use data::Kind;
pub use pieces::hextile_in_pieces;
pub use test_canvas::{HEIGHT, TestCanvas, WIDTH};
pub use writers::{
    write_bell, write_client_cut_text, write_color_map, write_key_event, write_pointer_event,
    write_raw_update, write_server_cut_text, written_bell_is_read, written_color_map_is_read,
    written_input_is_read, written_text_is_read,
};

#[cfg(test)]
mod tests;
