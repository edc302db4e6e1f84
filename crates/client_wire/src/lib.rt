//! Messages of a viewer in the remote framebuffer protocol (RFC 6143, section 7.5).
#![tactic(auto)]

mod field;
mod laws;
mod message;
mod message_type;
mod partial_message;
mod plain;
mod reader;
mod step;
mod write;

pub use laws::{
    a_rest_begins_none, grammar_reads_messages, no_message_begins_another, one_reading_of_a_stream,
    one_reading_of_bytes,
};
pub use message::{ClientMessage, Encodings};
pub use message_type::ClientMessageType;
pub use plain::read_client_message;
pub use reader::ClientReader;
pub use write::{
    write_request, write_set_encodings, write_set_pixel_format, write_update_head,
    written_encodings_are_read, written_format_is_read, written_request_is_read,
};
