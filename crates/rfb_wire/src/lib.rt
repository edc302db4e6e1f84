//! Messages of the remote framebuffer protocol (RFC 6143, sections 7.5 to 7.7).
#![tactic(auto)]

mod fault;
mod laws;
mod message;
mod message_type;
mod partial_message;
mod plain;
mod reader;
mod step;

pub use client_wire::{
    ClientMessage, ClientMessageType, ClientReader, Encodings, read_client_message, write_request,
    write_set_encodings, write_set_pixel_format,
};
pub use fault::BytesFault;
pub use laws::{
    a_rest_begins_none, grammar_reads_messages, no_message_begins_another, one_reading_of_a_stream,
    one_reading_of_bytes, written_update_is_read,
};
pub use message::{HostMessage, Rectangle};
pub use message_type::HostMessageType;
pub use plain::{Front, read_message};
pub use reader::ServerReader;
pub use rect_data::Encoding;
pub use terms::{Area, WireFault};
