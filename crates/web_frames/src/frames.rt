//! The reader and the writer of frames.

ghost use Rattle.std.specs.Prelude.{◌≡◌, ◌⊎◌, ℕ, [], ◌++◌, List, length, false, IfOk, IfErr, IfSome, option_map, OnOk, OnErr, Ok, Err, Some, None};
ghost use Rattle.websocket.specs.Content.{received_content, IsReceivedInside, HasValidText};
ghost use Rattle.websocket.specs.Connection.{Connection, Effect, can_write, check_open, close_step, consumed_with, on_frame, read_step, whole_header};
ghost use Rattle.websocket.specs.Frame.{after_check, check_size, encode_frame};
ghost use Rattle.websocket.specs.FrameHeader.{IsHeader};
ghost use Rattle.websocket.specs.declared.protocol.frame.header.FrameHeader.{FrameHeader};
ghost use Rattle.websocket.specs.declared.protocol.frame.coding.OpCode.TheVariants as OpCode;
ghost use Rattle.websocket.specs.declared.protocol.frame.coding.Data.TheVariants.{Binary, Text};
ghost use Rattle.websocket.specs.Stream.{read_all, read_chunks, concat};
ghost use Rattle.websocket.specs.View.{Leaves};
ghost use Rattle.web_frames.specs.declared.fault.Fault.{Fault as FaultValue};
ghost use Rattle.web_frames.specs.declared.fault.Fault.TheVariants.{NoMemory};
ghost use Rattle.web_frames.specs.Frames.{Gives, HasHeard, IsSame, Refuses, StepsTo, StopsAt};

use crate::fault::Fault;
use crate::heard::{END_OF_TEXT, Heard};
use std::alloc::Global;
use std::marker::Model;
use websocket::protocol::{
    CloseCode, CloseFrame, FrameStatus, Message, NoMask, Received, Role, WebSocketConfig,
    WebSocketContext, WebSocketState,
};

/// The longest frame, and the longest message in fragments, in bytes.
pub const LONGEST_FRAME: usize = 65_536;

/// Reads a viewer's frames from its stream, which comes in pieces of any length, and writes those of
/// the server. Memory is taken for bytes that have come alone.
#[derive(Drop)]
pub struct Frames {
    context: WebSocketContext,
    /// The bytes of the frame that has begun.
    rest: Vec<u8>,
    fault: Option<Fault>,
}

impl Model for Frames {
    ghost use Rattle.web_frames.specs.Frames.{IsServers, Reader};

    ghost Value = { Reader };

    ghost view = { λ f. record { conn = f.context; rest = f.rest.items; fault = f.fault } };

    ghost invariant = { λ f. IsServers f.context };
}

// Appends what a message carries; not a part of a payload.
fn carry(message: &Option<Received>, input: &[u8], heard: &mut Heard) -> Result<(), Fault>
    requires inside { IfSome message.now (IsReceivedInside input.now) }
    requires valid { IfSome message.now (λ m. HasValidText (received_content input.now m)) }
    ensures ok { OnOk result (HasHeard (option_map (received_content input.now) message.now) heard.old heard.new) }
    ensures replies { OnOk result (heard.new.replies.items ≡ heard.old.replies.items) }
    ensures err { IfErr result (λ f. f ≡ NoMemory) }
{
    let Some(received) = message else {
        return Ok(());
    };
    match received.message(input) {
        Message::Binary(bytes) => Ok(heard.payload.extend_from_slice(bytes)?),
        Message::Text(text) => {
            heard.words.extend_from_slice(text.as_bytes())?;
            Ok(heard.words.extend_from_slice(&[END_OF_TEXT])?)
        }
        _ => Ok(()),
    }
}

impl Frames {
    /// After the answer to an upgrade.
    pub fn new(alloc: Global) -> Frames
        ensures rest { result.rest ≡ [] }
        ensures fault { result.fault ≡ None }
        ensures server { result.conn.role ≡ Role.Server }
        ensures active { result.conn.state ≡ WebSocketState.Active }
        ensures limits { result.conn.config ≡ record { max_message_size = Some 65536; max_frame_size = Some 65536; accept_unmasked_frames = false } }
        ensures whole { result.conn.fragments ≡ None }
    {
        let limits = WebSocketConfig {
            max_message_size: Some(LONGEST_FRAME),
            max_frame_size: Some(LONGEST_FRAME),
            accept_unmasked_frames: false,
        };
        Frames {
            context: WebSocketContext::new(alloc, Role::Server, limits),
            rest: Vec::new(alloc),
            fault: None,
        }
    }

    // Takes the frame at the front of the rest: whether it is whole.
    fn take_frame(&mut self, heard: &mut Heard) -> Result<bool, Fault>
        ensures steps { IfOk result (λ goes. StepsTo goes (read_step self.old.conn self.old.rest) self.old self.new heard.old heard.new) }
        ensures refused { IfErr result (λ f. (f ≡ NoMemory) ⊎ (Refuses (read_step self.old.conn self.old.rest) f × IsSame heard.old heard.new)) }
        ensures fault { self.new.fault ≡ self.old.fault }
    {
        let status = self
            .context
            .read(&mut self.rest[..], &mut heard.replies, &mut NoMask)?;
        let FrameStatus::Complete(step) = status else {
            return Ok(false);
        };
        carry(&step.message, &self.rest, heard)?;
        self.rest.drain(..step.consumed);
        Ok(true)
    }

    // Takes the frames that are whole.
    fn take_frames(&mut self, heard: &mut Heard) -> Result<(), Fault>
        ensures goes { OnOk result ((effects : List Effect)
            × (read_all self.old.conn self.old.rest ≡ record { effects = effects; end = Ok (self.new.conn, self.new.rest) })
            × Gives effects heard.old heard.new) }
        ensures stops { IfErr result (λ f. (f ≡ NoMemory) ⊎ StopsAt self.old.conn self.old.rest heard.old heard.new f) }
        ensures fault { self.new.fault ≡ self.old.fault }
    {
        let most = self.rest.len();
        for _taken in 0..=most {
            match self.take_frame(heard) {
                Ok(true) => {}
                Ok(false) => return Ok(()),
                Err(fault) => return Err(fault),
            }
        }
        Ok(())
    }

    fn take_piece(&mut self, piece: &[u8], heard: &mut Heard) -> Result<(), Fault>
        ensures goes { OnOk result ((effects : List Effect)
            × (read_all self.old.conn (self.old.rest ++ piece.now) ≡ record { effects = effects; end = Ok (self.new.conn, self.new.rest) })
            × Gives effects heard.old heard.new) }
        ensures stops { IfErr result (λ f. (f ≡ NoMemory) ⊎ StopsAt self.old.conn (self.old.rest ++ piece.now) heard.old heard.new f) }
        ensures fault { self.new.fault ≡ self.old.fault }
    {
        self.rest.extend_from_slice(piece)?;
        self.take_frames(heard)
    }

    /// Takes the next piece of the stream, and appends what each message that is whole now carries,
    /// and what is to be answered to pings and to a close. A fault is answered once what comes before
    /// it is appended; from then on each call answers the same fault and does nothing else, also if
    /// memory ran out.
    pub fn feed(&mut self, piece: &[u8], heard: &mut Heard) -> Result<(), Fault>
        // All frames that are whole are taken, as if the stream had come at once.
        ensures goes { OnOk result ((effects : List Effect)
            × (read_all self.old.conn (self.old.rest ++ piece.now) ≡ record { effects = effects; end = Ok (self.new.conn, self.new.rest) })
            × Gives effects heard.old heard.new) }
        // A fault stands in the stream, after the frames of which all is given.
        ensures stops { IfErr result (λ f. self.old.fault ≡ None → (f ≡ NoMemory) ⊎ StopsAt self.old.conn (self.old.rest ++ piece.now) heard.old heard.new f) }
        ensures going { OnOk result (self.new.fault ≡ None) }
        ensures stopped { IfErr result (λ f. self.new.fault ≡ Some f) }
        ensures for_good { (f : FaultValue) → self.old.fault ≡ Some f
            → (result ≡ Err f) × (self.new ≡ self.old) × (heard.new ≡ heard.old) }
    {
        if let Some(fault) = self.fault {
            return Err(fault);
        }
        let taken = self.take_piece(piece, heard);
        if let Err(fault) = taken {
            self.fault = Some(fault);
        }
        taken
    }

    /// Appends an answer as one binary frame; nothing if that fails, as it does once the connection is
    /// closed.
    #[tactic(auto, using(crate::proofs::Written::no_binary))]
    pub fn wrap(&mut self, answer: &[u8], out: &mut Vec<u8>) -> Result<(), Fault>
        ensures ok { OnOk result (out.new.items ≡ out.old.items ++ encode_frame (whole_header (OpCode.Data Binary) None) answer.now) }
        ensures state { OnOk result (self.new ≡ self.old) }
        ensures err { IfErr result (λ f. (f ≡ NoMemory) ⊎ (can_write self.old.conn.state ≡ false)) }
        ensures kept { OnErr result (out.new.items ≡ out.old.items) }
    {
        match self
            .context
            .write(Message::Binary(answer), out, &mut NoMask)
        {
            Ok(()) => Ok(()),
            Err(error) => Err(Fault::from(error)),
        }
    }

    /// Appends a text as one frame; nothing if that fails.
    #[tactic(auto, using(crate::proofs::Written::no_text))]
    pub fn tell(&mut self, words: &str, out: &mut Vec<u8>) -> Result<(), Fault>
        ensures ok { OnOk result (out.new.items ≡ out.old.items ++ encode_frame (whole_header (OpCode.Data Text) None) words.now) }
        ensures state { OnOk result (self.new ≡ self.old) }
        ensures err { IfErr result (λ f. (f ≡ NoMemory) ⊎ (can_write self.old.conn.state ≡ false)) }
        ensures kept { OnErr result (out.new.items ≡ out.old.items) }
    {
        match self.context.write(Message::Text(words), out, &mut NoMask) {
            Ok(()) => Ok(()),
            Err(error) => Err(Fault::from(error)),
        }
    }

    /// Appends a frame that closes the connection with this code and reason (RFC 6455, section
    /// 7.4), unless one was sent; nothing if that fails. A reason has 123 bytes at most.
    pub fn close(&mut self, code: CloseCode, reason: &str, out: &mut Vec<u8>) -> Result<(), Fault>
        ensures ok { OnOk result (Leaves (close_step self.old.conn (Some (code, reason.now))) self.new.conn out.old.items out.new.items) }
        ensures kept { OnErr result (out.new.items ≡ out.old.items) }
    {
        let frame = CloseFrame { code, reason };
        self.context.close(Some(frame), out, &mut NoMask)?;
        Ok(())
    }
}

/// Does nothing: its contract is that nothing depends on how a stream is cut. What frames do in
/// pieces, read by `read_all` each after the rest of those before, they do in one.
pub fn cuts_do_not_matter()
    ensures { (conn : Connection) → (pieces : List (List ℕ)) → read_chunks conn pieces ≡ read_all conn (concat pieces) }
{}

/// Does nothing: its contract is that a frame is read as it is written. Of bytes that begin with a
/// frame in the format of RFC 6455, section 5.2, as many are taken as it has, and what it does is
/// what its header and its payload do, unless the connection is closed or the frame is too long.
pub fn frames_are_read_as_written()
    ensures { (conn : Connection) → (h : FrameHeader) → (payload rest : List ℕ) → IsHeader h (length payload)
        → read_step conn (encode_frame h payload ++ rest)
        ≡ after_check (check_open conn.role conn.state) (after_check (check_size (length payload) conn.config.max_frame_size)
        (consumed_with (length (encode_frame h payload)) (on_frame conn h payload))) }
{}
