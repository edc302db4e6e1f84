//! The text for a refusal.

ghost use Rattle.std.specs.Prelude.{◌≡◌, ◌↔◌, ◌≤◌, IsSome, length};
ghost use Rattle.refusals.specs.declared.area.Area.{Area};
ghost use Rattle.refusals.specs.Areas.{word_of, IsNumberOf};

use crate::area::Area;
use crate::exports::{EXPORT, FBS};
use crate::peers::{HANDSHAKE, WIRE};
use crate::recordings::{BOOK, DIGEST, INDEX, JOURNAL, MIGRATE, REPLAY, SALVAGE};
use crate::system::{FILE, NET, THREAD};

// The text of a number, counted from 1.
fn text_of(texts: &[&'static str], number: u64) -> Option<&'static str>
    ensures { IsSome result ↔ (1 ≤ number) × (number ≤ length texts.now) }
{
    let index = number.checked_sub(1)?;
    if index < texts.len() as u64 {
        Some(texts[index as usize])
    } else {
        None
    }
}

// The text of a host: of a message's fault, or of one of the handshake, which have 20 and more.
fn text_of_host(number: u64) -> Option<&'static str>
    ensures { IsSome result ↔ IsNumberOf Area.Host number }
{
    match number.checked_sub(19) {
        Some(after) if after > 0 => text_of(&HANDSHAKE, after),
        _ => text_of(&WIRE, number),
    }
}

/// What a refusal of this area and number means, what it comes from, and what to do: two or three
/// lines of at most 80 columns, the last one without a newline after it.
pub fn explanation(area: Area, number: u64) -> Option<&'static str>
    ensures { IsSome result ↔ IsNumberOf area number }
{
    match area {
        Area::Journal => text_of(&JOURNAL, number),
        Area::Index => text_of(&INDEX, number),
        Area::Replay => text_of(&REPLAY, number),
        Area::Digest => text_of(&DIGEST, number),
        Area::Migrate => text_of(&MIGRATE, number),
        Area::Salvage => text_of(&SALVAGE, number),
        Area::Export => text_of(&EXPORT, number),
        Area::Fbs => text_of(&FBS, number),
        Area::Wire => text_of(&WIRE, number),
        Area::Host => text_of_host(number),
        Area::Book => text_of(&BOOK, number),
        Area::File => text_of(&FILE, number),
        Area::Net => text_of(&NET, number),
        Area::Thread => text_of(&THREAD, number),
    }
}

/// The same of an area by its word, as a refusal's line has it.
pub fn explain(area: &str, number: u64) -> Option<&'static str>
    ensures told { (known : Area) → area.now ≡ word_of known → (IsSome result ↔ IsNumberOf known number) }
    ensures unknown { IsSome result → (known : Area) × (area.now ≡ word_of known) }
{
    explanation(Area::from_word(area)?, number)
}
