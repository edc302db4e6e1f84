//! What a check keeps of the messages that it hears.

ghost use Rattle.std.specs.Prelude.{◌≡◌, ◌+◌, [], ◌∷◌, ◌++◌, List, OnOk, length};
ghost use Rattle.keyed_entries.specs.declared.entry.Stamped.{Stamped as Entry};
ghost use Rattle.rfb_wire.specs.Host.{Host};
ghost use Rattle.fbs_export.specs.Summary.{at_time};

use replay::key_index::Stamped;
use rfb_wire::HostMessage;
use std::alloc::{AllocError, Global};
use std::mem;
use terms::NoMemory;

/// What is kept of messages that become whole one by one. Those that wait for their time get it
/// together, all the same. After an error nothing is said of what it stands for.
pub trait Tally: Drop {
    /// It stands for messages that have their times, and after them messages that wait.
    ghost stands_for: { Self → List Entry → List Host → Type 0 };

    /// Takes the next message, which then waits.
    fn hear(&mut self, message: HostMessage) -> Result<(), NoMemory>
        ensures { OnOk result ((told : List Entry) → (waiting : List Host)
            → stands_for self.old told waiting
            → stands_for self.new told (waiting ++ message ∷ [])) };

    /// Gives the messages that wait this time.
    fn stamp(&mut self, time: u32) -> Result<(), NoMemory>
        ensures { OnOk result ((told : List Entry) → (waiting : List Host)
            → stands_for self.old told waiting
            → stands_for self.new (told ++ at_time time waiting) []) };
}

/// The messages themselves.
#[derive(Drop)]
pub struct Kept {
    alloc: Global,
    waiting: Vec<HostMessage>,
    messages: Vec<Stamped>,
}

impl Kept {
    /// No message.
    pub fn new(alloc: Global) -> Kept
        ensures waiting { result.waiting.items ≡ [] }
        ensures messages { result.messages.items ≡ [] }
    {
        Kept {
            alloc,
            waiting: Vec::new(alloc),
            messages: Vec::new(alloc),
        }
    }

    /// The messages that have their times.
    pub fn into_messages(self) -> Vec<Stamped>
        ensures { result ≡ self.messages }
    {
        self.messages
    }
}

impl Tally for Kept {
    ghost stands_for = { λ kept told waiting.
        (kept.messages.items ≡ told) × (kept.waiting.items ≡ waiting) };

    fn hear(&mut self, message: HostMessage) -> Result<(), NoMemory> {
        self.waiting.push(message)?;
        Ok(())
    }

    fn stamp(&mut self, time: u32) -> Result<(), NoMemory> {
        let waiting = mem::replace(&mut self.waiting, Vec::new(self.alloc));
        for message in waiting {
            self.messages.push(Stamped { time, message })?;
        }
        Ok(())
    }
}

/// Their number alone. At 2^64 messages, more than any file has, it ends as when memory runs out.
#[derive(Clone, Copy)]
pub struct Counter {
    number: u64,
}

impl Counter {
    /// No message.
    pub fn new() -> Counter
        ensures { result.number ≡ 0 }
    {
        Counter { number: 0 }
    }

    /// How many messages there are.
    pub fn number(self) -> u64
        ensures { result ≡ self.number }
    {
        self.number
    }
}

impl Tally for Counter {
    ghost stands_for = { λ counter told waiting. counter.number ≡ length told + length waiting };

    fn hear(&mut self, _message: HostMessage) -> Result<(), NoMemory> {
        let Some(number) = self.number.checked_add(1) else {
            return Err(AllocError);
        };
        self.number = number;
        Ok(())
    }

    fn stamp(&mut self, _time: u32) -> Result<(), NoMemory> {
        Ok(())
    }
}
