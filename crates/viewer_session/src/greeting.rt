//! A viewer's handshake, heard in pieces and answered.

ghost use Rattle.std.specs.Prelude.{◌≡◌, ◌<◌, ◌^◌, ◌/◌, ◌%◌, ◌++◌, [], ◌∷◌, length, drop, false, true, IfOk, IfErr, OnOk, OnErr};
ghost use Rattle.terms.specs.Number.{u32_bytes};
ghost use Rattle.viewer_session.specs.Handshake.{server_init};

use crate::fault::SessionFault;
use crate::handshake::{LENGTH, Stage, greeting, is_whole, stage_of};
use arrayvec::ArrayVec;
use pixel_format::PixelFormat;
use std::alloc::Global;
use terms::{NoMemory, ScreenSize, four_bytes, two_bytes};

/// What a viewer is told of the screen, how far its handshake goes, and how much it was answered.
#[derive(Drop)]
pub struct Greeting {
    pub size: ScreenSize,
    pub name: Vec<u8>,
    /// The first bytes of the viewer's stream, as far as its handshake goes.
    pub heard: ArrayVec<u8, LENGTH>,
    /// How many bytes of what they are answered with were put out.
    pub sent: usize,
    /// Whether it is known that these are all.
    pub settled: bool,
}

// Appends a width and a height.
fn write_size(size: ScreenSize, out: &mut Vec<u8>) -> Result<(), NoMemory>
    ensures { OnOk result (out.new.items ≡ out.old.items
        ++ (size.width / 256 ∷ size.width % 256 ∷ size.height / 256 ∷ size.height % 256 ∷ [])) }
{
    let [wide, width_low] = two_bytes(size.width);
    let [high, height_low] = two_bytes(size.height);
    out.extend_from_slice(&[wide, width_low, high, height_low])?;
    Ok(())
}

// Appends a name's length.
fn write_length(count: u32, out: &mut Vec<u8>) -> Result<(), NoMemory>
    ensures { OnOk result (out.new.items ≡ out.old.items ++ u32_bytes count) }
{
    out.extend_from_slice(&four_bytes(count))?;
    Ok(())
}

// Appends ServerInit, or a part of it if memory runs out.
fn write_server_init(size: ScreenSize, name: &[u8], out: &mut Vec<u8>) -> Result<(), NoMemory>
    requires { length name.now < 2 ^ 32 }
    ensures { OnOk result (out.new.items ≡ out.old.items ++ server_init size.width size.height name.now) }
{
    write_size(size, out)?;
    out.extend_from_slice(&PixelFormat::host().write())?;
    write_length(name.len() as u32, out)?;
    out.extend_from_slice(name)?;
    Ok(())
}

impl Greeting {
    ghost use Rattle.viewer_session.specs.Greeting.{IsSoundGreeting, said_by, Hears, Refuses};

    /// The start of a stream.
    pub fn new(size: ScreenSize, name: Vec<u8>) -> Greeting
        requires { length name.items < 2 ^ 32 }
        ensures sound { IsSoundGreeting result }
        ensures told { (result.size ≡ size) × (result.name ≡ name) }
        ensures heard { result.heard.items ≡ [] }
        ensures sent { result.sent ≡ 0 }
    {
        Greeting {
            size,
            name,
            heard: ArrayVec::new(),
            sent: 0,
            settled: false,
        }
    }

    /// Takes a piece, up to the handshake's end. If that is whole now, answers how many bytes of
    /// the piece it took.
    pub fn hear(&mut self, piece: &[u8]) -> Result<Option<usize>, SessionFault>
        requires sound { IsSoundGreeting self.old }
        ensures sound { IsSoundGreeting self.new }
        ensures kept { self.new ≡ record self.old { heard = self.new.heard; settled = false } }
        ensures heard { IfOk result (Hears self.old self.new piece.now) }
        ensures faults { IfErr result (Refuses self.old self.new piece.now) }
    {
        let taken = piece.len().min(self.heard.remaining_capacity());
        let Ok(()) = self.heard.try_extend_from_slice(&piece[..taken]) else {
            unreachable!()
        };
        self.settled = false;
        if is_whole(self.heard.as_slice())? {
            return Ok(Some(taken));
        }
        Ok(None)
    }

    // Appends all that the handshake is answered with so far, or a part of it if memory runs out.
    fn write_said(&self, out: &mut Vec<u8>) -> Result<(), NoMemory>
        requires { IsSoundGreeting self.now }
        ensures { OnOk result (out.new.items ≡ out.old.items ++ said_by self.now) }
    {
        let stage = stage_of(self.heard.as_slice());
        out.extend_from_slice(greeting(stage))?;
        if let Stage::Whole = stage {
            write_server_init(self.size, &self.name, out)?;
        }
        Ok(())
    }

    /// Appends the bytes that are due, and answers how many were put out with them. Running out
    /// of memory changes nothing.
    pub fn write_due(&self, alloc: Global, out: &mut Vec<u8>) -> Result<usize, NoMemory>
        requires { IsSoundGreeting self.now }
        ensures ok { OnOk result (out.new.items
            ≡ out.old.items ++ drop self.now.sent (said_by self.now)) }
        ensures count { IfOk result (λ n. n ≡ length (said_by self.now)) }
        ensures err { OnErr result (out.new.items ≡ out.old.items) }
    {
        if self.settled {
            return Ok(self.sent);
        }
        let mut said = Vec::new(alloc);
        self.write_said(&mut said)?;
        out.extend_from_slice(&said[self.sent..])?;
        Ok(said.len())
    }

    /// Takes all that is said so far, of so many bytes, as put out.
    pub fn settle(&mut self, sent: usize)
        requires sound { IsSoundGreeting self.old }
        requires all { sent ≡ length (said_by self.old) }
        ensures sound { IsSoundGreeting self.new }
        ensures settled { self.new ≡ record self.old { sent = sent; settled = true } }
    {
        self.sent = sent;
        self.settled = true;
    }
}
