//! The painter's script.

/// A script that paints updates of RFB on pixels, and spells times. A page's own script follows it,
/// and says which color of a canvas a pixel is: `color`.
pub const PAINTER: &str = r##"'use strict';

const OPAQUE = 0xff000000;

// Reads numbers off bytes, as RFB has them: the highest byte first. More bytes may come later.
class Reader {
  constructor(bytes) { this.bytes = bytes; this.offset = 0; }
  get left() { return this.bytes.length - this.offset; }
  push(more) {
    const unread = this.bytes.subarray(this.offset);
    this.offset = 0;
    if (unread.length === 0) { this.bytes = more; return; }
    this.bytes = new Uint8Array(unread.length + more.length);
    this.bytes.set(unread);
    this.bytes.set(more, unread.length);
  }
  take(count) {
    if (count > this.left) throw new Error('it ends too early');
    this.offset += count;
    return this.bytes.subarray(this.offset - count, this.offset);
  }
  u8() {
    if (this.left === 0) throw new Error('it ends too early');
    return this.bytes[this.offset++];
  }
  u16() { return this.u8() << 8 | this.u8(); }
  u32() { return (this.u16() << 16 | this.u16()) >>> 0; }
  pixel() { return color(this.u8() | this.u8() << 8 | this.u8() << 16 | this.u8() << 24); }
}

// A screen on which updates are painted (RFC 6143, sections 7.6.1 and 7.7). Whatever paints yields if
// bytes are missing, and goes on once more have come.
class Painter {
  constructor(width, height) {
    this.width = width;
    this.height = height;
    this.pixels = new Uint32Array(width * height).fill(OPAQUE);
    this.bytes = new Uint8Array(this.pixels.buffer);
  }
  // Paints an update, after its type. Notes the box round what is painted, and its area.
  *update(message) {
    this.box = { left: this.width, top: this.height, right: 0, bottom: 0 };
    this.area = 0;
    while (message.left < 3) yield;
    message.u8();
    for (let left = message.u16(); left > 0; left--) {
      while (message.left < 12) yield;
      const x = message.u16(), y = message.u16(), w = message.u16(), h = message.u16();
      const encoding = message.u32();
      if (x + w > this.width || y + h > this.height) throw new Error('an area lies outside the screen');
      this.note(x, y, w, h);
      yield* this.rectangle(x, y, w, h, encoding, message);
    }
  }
  note(x, y, w, h) {
    const { left, top, right, bottom } = this.box;
    this.box = {
      left: Math.min(left, x), top: Math.min(top, y), right: Math.max(right, x + w), bottom: Math.max(bottom, y + h),
    };
    this.area += w * h;
  }
  *rectangle(x, y, w, h, encoding, message) {
    if (encoding === 0) yield* this.raw(x, y, w, h, message);
    else if (encoding === 1) yield* this.copy(x, y, w, h, message);
    else if (encoding === 2) yield* this.rre(x, y, w, h, message);
    else if (encoding === 5) yield* this.hextile(x, y, w, h, message);
    else throw new Error('unknown encoding ' + encoding);
  }
  fill(x, y, w, h, pixel) {
    for (let row = y; row < y + h; row++) {
      const start = row * this.width + x;
      this.pixels.fill(pixel, start, start + w);
    }
  }
  *raw(x, y, w, h, message) {
    for (let row = y; row < y + h; row++) {
      while (message.left < 4 * w) yield;
      const start = row * this.width + x;
      this.bytes.set(message.take(4 * w), 4 * start);
      for (let to = start; to < start + w; to++) this.pixels[to] = color(this.pixels[to]);
    }
  }
  *copy(x, y, w, h, message) {
    while (message.left < 4) yield;
    const fromX = message.u16(), fromY = message.u16();
    const step = fromY < y ? -1 : 1;
    for (let left = h, row = step < 0 ? h - 1 : 0; left > 0; left--, row += step) {
      const from = (fromY + row) * this.width + fromX;
      this.pixels.copyWithin((y + row) * this.width + x, from, from + w);
    }
  }
  *rre(x, y, w, h, message) {
    while (message.left < 8) yield;
    const count = message.u32();
    this.fill(x, y, w, h, message.pixel());
    for (let left = count; left > 0; left--) {
      while (message.left < 12) yield;
      const pixel = message.pixel();
      this.fill(x + message.u16(), y + message.u16(), message.u16(), message.u16(), pixel);
    }
  }
  *hextile(x, y, w, h, message) {
    const colors = { background: OPAQUE, foreground: OPAQUE };
    for (let top = y; top < y + h; top += 16) {
      for (let left = x; left < x + w; left += 16) {
        yield* this.tile(left, top, Math.min(16, x + w - left), Math.min(16, y + h - top), colors, message);
      }
    }
  }
  *tile(x, y, w, h, colors, message) {
    while (message.left < 1) yield;
    const mask = message.u8();
    if (mask & 1) return yield* this.raw(x, y, w, h, message);
    while (message.left < (mask & 2 ? 4 : 0) + (mask & 4 ? 4 : 0) + (mask & 8 ? 1 : 0)) yield;
    if (mask & 2) colors.background = message.pixel();
    if (mask & 4) colors.foreground = message.pixel();
    this.fill(x, y, w, h, colors.background);
    const count = mask & 8 ? message.u8() : 0;
    while (message.left < count * (mask & 16 ? 6 : 2)) yield;
    for (let left = count; left > 0; left--) {
      const pixel = mask & 16 ? message.pixel() : colors.foreground;
      const corner = message.u8(), size = message.u8();
      this.fill(x + (corner >> 4), y + (corner & 15), (size >> 4) + 1, (size & 15) + 1, pixel);
    }
  }
}

const at = id => document.getElementById(id);

// A time in seconds, as 3:12 or 1:03:12, and in milliseconds.
function secondsOf(ms) {
  const seconds = Math.floor(ms / 1000), minutes = Math.floor(seconds / 60);
  const two = n => String(n).padStart(2, '0');
  return minutes < 60 ? minutes + ':' + two(seconds % 60)
    : Math.floor(minutes / 60) + ':' + two(minutes % 60) + ':' + two(seconds % 60);
}
const clockOf = ms => secondsOf(ms) + '.' + String(Math.floor(ms) % 1000).padStart(3, '0');
"##;
