//! The stream of a file, read in pieces.

ghost use Rattle.std.specs.Prelude.{◌≡◌, ◌+◌, ◌++◌, [], ℕ, List, length, replicate, None, IfOk, OnOk, IfErr};
ghost use Rattle.client_wire.specs.Stream.{Goes, Stops, StandsFor};
ghost use Rattle.keyed_entries.specs.declared.entry.Stamped.{Stamped};
ghost use Rattle.fbs_export.specs.Opening.{opening_at};
ghost use Rattle.fbs_export.specs.Reader.{IsDataFault, OfMessage, Stands};
ghost use Rattle.fbs_export.specs.Told.{IsTold};
ghost use Rattle.terms.specs.Reading.{More};
ghost use Rattle.rfb_wire.specs.Host.{Host};
ghost use Rattle.rfb_wire.specs.Stream.{given};
ghost use Rattle.rfb_wire.specs.Grammar.{message_at, message_limit};

use crate::fault::FbsFault;
use crate::opening::OpeningReader;
use crate::tally::Tally;
use rfb_wire::{HostMessage, ServerReader};
use std::alloc::Global;
use terms::{Format, NoMemory, RecordedScreen, ScreenSize, WireFault};

/// What is read of a stream: its opening, and once this is whole, the messages after it, in format
/// 2, which a tally is told. Those of the block that comes wait for its time.
#[derive(Drop)]
pub struct Stream<T> {
    alloc: Global,
    opening: OpeningReader,
    reader: Option<ServerReader>,
    tally: T,
}

/// What a stream tells: the size of the screen, the name, a tally of the messages, and the number of
/// bytes of an unfinished last one.
#[derive(Drop)]
pub struct Told<T> {
    pub size: ScreenSize,
    pub name: Vec<u8>,
    pub tally: T,
    pub rest: u64,
}

// Takes a piece of the messages.
fn hear(
    reader: &mut ServerReader,
    piece: &[u8],
    hosts: &mut Vec<HostMessage>,
) -> Result<(), FbsFault>
    ensures goes { OnOk result ((rest : List ℕ) → StandsFor reader.old.kept reader.old.passed rest
        → Goes (message_at (message_limit reader.old.format) reader.old.width reader.old.height) (given reader.old.format reader.old.width reader.old.height) reader.new.kept reader.new.passed
        hosts.old.items hosts.new.items (rest ++ piece.now)) }
    ensures fault { IfErr result (λ f. reader.old.fault ≡ None → OfMessage f (λ w. (rest : List ℕ)
        → StandsFor reader.old.kept reader.old.passed rest
        → Stops (message_at (message_limit reader.old.format) reader.old.width reader.old.height) (given reader.old.format reader.old.width reader.old.height) w
        hosts.old.items hosts.new.items (rest ++ piece.now))) }
    ensures going { OnOk result (reader.new.fault ≡ None) }
    ensures screen { (reader.new.format ≡ reader.old.format)
        × (reader.new.width ≡ reader.old.width) × (reader.new.height ≡ reader.old.height) }
{
    match reader.feed(piece, hosts) {
        Ok(()) => Ok(()),
        Err(WireFault::NoMemory) => Err(FbsFault::NoMemory),
        Err(fault) => Err(FbsFault::Message(fault)),
    }
}

// Tells messages that have become whole.
fn tell<T: Tally>(hosts: Vec<HostMessage>, tally: &mut T) -> Result<(), NoMemory>
    ensures { OnOk result ((told : List Stamped) → (waiting : List Host)
        → T.stands_for tally.old told waiting
        → T.stands_for tally.new told (waiting ++ hosts.items)) }
{
    for message in hosts {
        tally.hear(message)?;
    }
    Ok(())
}

impl<T: Tally> Stream<T> {
    /// The start of a stream, with a tally that stands for no message.
    pub fn new(alloc: Global, tally: T) -> Stream<T>
        requires { T.stands_for tally [] [] }
        ensures { Stands T.stands_for result [] [] }
    {
        Stream {
            alloc,
            opening: OpeningReader::new(alloc),
            reader: None,
            tally,
        }
    }

    // Takes a piece that comes before the opening is whole.
    fn open(&mut self, piece: &[u8]) -> Result<(), FbsFault>
        ensures goes { OnOk result (self.old.reader ≡ None → (times s : List ℕ) → Stands T.stands_for self.old times s → Stands T.stands_for self.new times (s ++ piece.now)) }
        ensures fault { IfErr result (λ f. self.old.reader ≡ None → (times s : List ℕ) → Stands T.stands_for self.old times s → IsDataFault (s ++ piece.now) f) }
    {
        let Some(whole) = self.opening.take(piece)? else {
            return Ok(());
        };
        let screen = RecordedScreen {
            format: Format::Two,
            size: whole.size,
        };
        let mut reader = ServerReader::in_format(self.alloc, screen);
        let mut hosts = Vec::new(self.alloc);
        hear(&mut reader, &piece[whole.taken..], &mut hosts)?;
        tell(hosts, &mut self.tally)?;
        self.reader = Some(reader);
        Ok(())
    }

    /// Takes a piece of data. A fault is answered at the last byte of the field that holds it.
    pub fn feed(&mut self, piece: &[u8]) -> Result<(), FbsFault>
        ensures goes { OnOk result ((times s : List ℕ) → Stands T.stands_for self.old times s → Stands T.stands_for self.new times (s ++ piece.now)) }
        ensures fault { IfErr result (λ f. (times s : List ℕ) → Stands T.stands_for self.old times s → IsDataFault (s ++ piece.now) f) }
    {
        if let Some(reader) = &mut self.reader {
            let mut hosts = Vec::new(self.alloc);
            hear(reader, piece, &mut hosts)?;
            tell(hosts, &mut self.tally)?;
            return Ok(());
        }
        self.open(piece)?;
        Ok(())
    }

    /// Ends a block of so many bytes, and gives the messages that became whole in it this time.
    pub fn end_block(&mut self, time: u32) -> Result<(), NoMemory>
        ensures { OnOk result ((times s : List ℕ) → (n : ℕ) → length s ≡ length times + n
            → Stands T.stands_for self.old times s → Stands T.stands_for self.new (times ++ replicate n time) s) }
    {
        self.tally.stamp(time)?;
        Ok(())
    }

    /// What the stream tells, if it ends after a block.
    pub fn finish(self) -> Result<Told<T>, FbsFault>
        ensures ok { IfOk result (λ told. (times s : List ℕ) → length times ≡ length s → Stands T.stands_for self times s → IsTold T.stands_for s times told) }
        ensures fault { IfErr result (λ f. (f ≡ FbsFault.Truncated) × ((times s : List ℕ) → Stands T.stands_for self times s → opening_at s ≡ More)) }
    {
        let Stream {
            alloc,
            opening,
            reader,
            tally,
        } = self;
        let Some(reader) = reader else {
            return Err(FbsFault::Truncated);
        };
        Ok(Told {
            size: reader.size(),
            name: opening.into_name(alloc),
            tally,
            rest: reader.unfinished(),
        })
    }
}
