//! Laws, which do nothing: that they can be called.

use crate::{
    written_bell_is_read, written_color_map_is_read, written_input_is_read, written_text_is_read,
};
use pixel_format::{valid_formats, written_as_read};

#[test]
fn laws_of_formats_and_data(_rt: HostRuntime) {
    valid_formats();
    written_as_read();
    rre::grammar_reads_data();
    rre::one_reading_of_data();
    rre::no_data_begin_others();
    hextile::grammar_reads_data();
    hextile::one_reading_of_data();
    hextile::no_data_begin_others();
}

#[test]
fn laws_of_messages(_rt: HostRuntime) {
    client_wire::written_format_is_read();
    client_wire::written_encodings_are_read();
    client_wire::written_request_is_read();
    client_wire::grammar_reads_messages();
    rect_codec::written_parts_are_read();
    rfb_wire::written_update_is_read();
    rfb_wire::grammar_reads_messages();
    rfb_wire::one_reading_of_bytes();
    rfb_wire::no_message_begins_another();
    rfb_wire::a_rest_begins_none();
    rfb_wire::one_reading_of_a_stream();
    written_input_is_read();
    written_color_map_is_read();
    written_bell_is_read();
    written_text_is_read();
}
