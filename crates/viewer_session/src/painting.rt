//! How a slice is painted on a screen, rectangle by rectangle.

ghost use Rattle.std.specs.Prelude.{◌≡◌, All, IfSome};
ghost use Rattle.std.specs.List.{AllByRecursion};
ghost use Rattle.painter.specs.Framebuffer.{SameSize};
ghost use Rattle.keyed_entries.specs.Entry.{IsStampedOf};
ghost use Rattle.viewer_session.specs.Shown.{ArePaintedOver, AreAllPaintedOver, start_or};

use painter::{Screen, Snapshot};
use replay::Slice;
use replay::key_index::Stamped;
use rfb_wire::HostMessage;

// Paints a message's rectangles.
fn paint(screen: &mut Screen, message: &HostMessage)
    requires width { message.now.width ≡ screen.old.width }
    requires height { message.now.height ≡ screen.old.height }
    ensures size { SameSize screen.old screen.new }
    ensures painted { ArePaintedOver message.now.bytes screen.old screen.new message.now.rectangles }
{
    for number in 0..message.rectangles().len() {
        screen.paint_rectangle(message, number);
    }
}

// Paints messages.
fn paint_all(screen: &mut Screen, messages: &[Stamped])
    requires widths { All (λ m. m.message.width ≡ screen.old.width) messages.now }
    requires heights { All (λ m. m.message.height ≡ screen.old.height) messages.now }
    ensures size { SameSize screen.old screen.new }
    ensures painted { AreAllPaintedOver screen.old screen.new messages.now }
{
    for stamped in messages {
        paint(screen, &stamped.message);
    }
}

// Takes a start over, if there is one.
fn take_over(screen: &mut Screen, start: &Option<Snapshot>)
    requires { IfSome start.now (λ s. (s.width ≡ screen.old.width) × (s.height ≡ screen.old.height)) }
    ensures { screen.new ≡ start_or start.now screen.old }
{
    if let Some(start) = start {
        screen.set_to(start);
    }
}

/// Paints a slice's messages over its start or, if it has none, over what the screen shows. It takes
/// no memory.
pub fn paint_slice(screen: &mut Screen, slice: &Slice)
    requires each { AllByRecursion (IsStampedOf screen.old.width screen.old.height) slice.now.messages.items }
    requires start { IfSome slice.now.start (λ s. (s.width ≡ screen.old.width) × (s.height ≡ screen.old.height)) }
    ensures size { SameSize screen.old screen.new }
    ensures painted { AreAllPaintedOver (start_or slice.now.start screen.old) screen.new slice.now.messages.items }
{
    take_over(screen, &slice.start);
    paint_all(screen, &slice.messages);
}
