//! The page: up to the recording, between it and the painter's script, and after that.

/// What a page begins with: its head, its style, and what is on it.
pub const FRONT: &str = r##"<!doctype html>
<html lang="en">
<head>
<meta charset="utf-8">
<meta name="viewport" content="width=device-width, initial-scale=1">
<meta http-equiv="Content-Security-Policy" content="default-src 'none'; script-src 'unsafe-inline'; style-src 'unsafe-inline'; img-src data:">
<meta name="referrer" content="no-referrer">
<title>Recording</title>
<link rel="icon" href="data:,">
<style>
:root { color-scheme: light dark; --ink: #1c1c1c; --paper: #fff; --dim: #5c5c5c; --bar: #e6e6e6; --mark: #2f6fa8; }
@media (prefers-color-scheme: dark) { :root { --ink: #e8e8e8; --paper: #181818; --dim: #a8a8a8; --bar: #333; --mark: #6aaee0; } }
* { box-sizing: border-box; }
body { margin: 0; font: 1rem/1.5 system-ui, sans-serif; color: var(--ink); background: var(--paper); }
header, main, footer { max-width: 90rem; margin: 0 auto; padding: 0 1rem; }
h1 { display: inline; font-size: 1.1rem; margin: 0 1rem 0 0; overflow-wrap: anywhere; }
#stage { background: #000; text-align: center; }
#stage:fullscreen { display: grid; place-items: center; }
#stage:fullscreen canvas { max-height: 100vh; }
#screen { max-width: 100%; height: auto; vertical-align: top; }
#overview { display: block; width: 100%; height: 2rem; margin-top: .5rem; background: var(--bar); cursor: pointer; }
#moment { width: 100%; margin: .25rem 0; accent-color: var(--mark); }
.bar { display: flex; flex-wrap: wrap; gap: .5rem 1rem; align-items: center; }
button, select { font: inherit; min-height: 2.5rem; padding: 0 .8rem; }
#clock { font-variant-numeric: tabular-nums; }
#fault { padding: .5rem; border: 2px solid #b00020; }
footer, #facts { color: var(--dim); font-size: .9rem; }
kbd { padding: 0 .3em; border: 1px solid var(--dim); border-radius: 3px; font: inherit; }
@media (pointer: coarse) { footer { display: none; } }
</style>
</head>
<body>
<header><h1 id="name">Recording</h1><span id="facts">Reading the recording.</span></header>
<main>
<p id="fault" role="alert" hidden></p>
<div id="stage"><canvas id="screen" width="640" height="480" role="img" aria-label="The recorded screen"></canvas></div>
<canvas id="overview" width="1000" height="32" aria-hidden="true"></canvas>
<input id="moment" type="range" min="0" max="0" value="0" aria-label="Moment of the recording">
<p class="bar">
<button id="play" type="button">Play</button>
<button id="before" type="button">Change before</button>
<button id="next" type="button">Next change</button>
<label>Speed <select id="speed">
<option value="0.25">1/4</option><option value="0.5">1/2</option><option value="1" selected>1</option>
<option value="2">2</option><option value="5">5</option><option value="20">20</option><option value="100">100</option>
</select></label>
<label><input id="skip" type="checkbox"> Skip pauses</label>
<button id="link" type="button">Link to this moment</button>
<button id="save" type="button">Save picture</button>
<button id="full" type="button">Full screen</button>
<output id="clock" for="moment" aria-live="off"></output>
</p>
</main>
<footer><kbd>Space</kbd> plays and pauses. <kbd>&larr;</kbd> <kbd>&rarr;</kbd> go a second, with
<kbd>Shift</kbd> ten. <kbd>P</kbd> <kbd>N</kbd> go to the change before and to the next. <kbd>Home</kbd>
<kbd>End</kbd> go to the ends. <kbd>+</kbd> <kbd>-</kbd> change the speed. <kbd>S</kbd> saves a picture,
<kbd>F</kbd> fills the screen.</footer>
<script id="recording" type="text/plain">
"##;

/// What stands between the recording and the painter's script.
pub const MIDDLE: &str = r##"
</script>
<script>
"##;

/// What it ends with: its own script.
pub const END: &str = r##"
// A canvas keeps red first, and the recording blue first.
const color = pixel => OPAQUE | (pixel & 0xff) << 16 | pixel & 0xff00 | pixel >> 16 & 0xff;

// The bytes of base64 text, a piece at a time: a long text is never decoded as one string.
function decoded(text) {
  const PIECE = 1 << 20;
  const clean = text.trim();
  const padding = clean.endsWith('==') ? 2 : clean.endsWith('=') ? 1 : 0;
  const bytes = new Uint8Array(clean.length / 4 * 3 - padding);
  for (let from = 0, to = 0; from < clean.length; from += PIECE) {
    const piece = atob(clean.slice(from, from + PIECE));
    for (let i = 0; i < piece.length; i++) bytes[to++] = piece.charCodeAt(i);
  }
  return bytes;
}

// The parts of an FBS file that `recorderd export` wrote: what the host said first, the screen at the
// start, and each message with its time in milliseconds.
function film(bytes) {
  const file = new Reader(bytes);
  if (!new TextDecoder().decode(file.take(12)).startsWith('FBS 001.')) throw new Error('this is no FBS file');
  const blocks = [];
  while (file.offset < bytes.length) {
    const length = file.u32();
    const data = file.take(length);
    file.take((4 - length % 4) % 4);
    blocks.push({ data, time: file.u32() });
  }
  const opening = new Reader(blocks.shift().data);
  opening.take(16);
  const width = opening.u16(), height = opening.u16();
  opening.take(16);
  const name = new TextDecoder().decode(opening.take(opening.u32()));
  return { width, height, name, messages: blocks };
}

// Paints a whole message on a screen, if it is an update.
function paint(painter, data) {
  const message = new Reader(data);
  if (message.u8() !== 0) return;
  if (!painter.update(message).next().done) throw new Error('it ends too early');
}

// How many pixels the screens that are kept have together, at most; two are kept in any case.
const MOST_KEPT = 1 << 25;

// The screens of a film. Some that were painted are kept, so that going back doesn't begin anew: no
// more than 32, as far apart as the film is long.
class Screens {
  constructor({ width, height, messages }) {
    this.messages = messages;
    this.painter = new Painter(width, height);
    this.count = 0;
    this.kept = [];
    this.most = Math.max(2, Math.min(32, Math.floor(MOST_KEPT / (width * height))));
    this.every = 1;
  }
  keep() {
    const last = this.kept.length ? this.kept[this.kept.length - 1].count : 0;
    if (this.count < last + this.every) return;
    this.kept.push({ count: this.count, pixels: this.painter.pixels.slice() });
    if (this.kept.length > this.most) {
      this.kept = this.kept.filter((_, index) => index % 2 === 1);
      this.every *= 2;
    }
  }
  show(count) {
    if (count < this.count) {
      const near = this.kept.findLast(screen => screen.count <= count);
      this.count = near ? near.count : 0;
      if (near) this.painter.pixels.set(near.pixels); else this.painter.pixels.fill(OPAQUE);
    }
    while (this.count < count) {
      paint(this.painter, this.messages[this.count].data);
      this.count++;
      this.keep();
    }
  }
}

// How long a pause is shown if pauses are skipped, in milliseconds of the clock on the wall.
const LONGEST_PAUSE = 1000;

class Player {
  constructor(shown) {
    this.film = shown;
    this.screens = new Screens(shown);
    this.times = shown.messages.map(message => message.time);
    this.length = this.times.length ? this.times[this.times.length - 1] : 0;
    this.moment = 0;
    this.isPlaying = false;
    const screen = at('screen');
    screen.width = shown.width;
    screen.height = shown.height;
    this.pen = screen.getContext('2d', { alpha: false });
    const { buffer } = this.screens.painter.pixels;
    this.image = new ImageData(new Uint8ClampedArray(buffer), shown.width, shown.height);
  }
  // How many messages have come at a moment: the first, a whole screen, has at any.
  countAt(moment) {
    let low = 1, high = this.times.length;
    while (low < high) {
      const middle = (low + high + 1) >> 1;
      if (this.times[middle - 1] <= moment) low = middle; else high = middle - 1;
    }
    return Math.min(low, this.times.length);
  }
  go(to) {
    this.moment = Math.round(Math.min(Math.max(to, 0), this.length));
    this.show(this.countAt(this.moment));
  }
  // Shows the screen after so many messages, as that of this moment.
  show(count) {
    if (count !== this.screens.count) {
      this.screens.show(count);
      this.pen.putImageData(this.image, 0, 0);
    }
    at('moment').value = this.moment;
    at('moment').setAttribute('aria-valuetext', clockOf(this.moment));
    at('clock').textContent = clockOf(this.moment) + ' of ' + clockOf(this.length);
  }
  seek(to) {
    this.go(to);
    this.begin();
  }
  // Notes when the clock on the wall shows this moment.
  begin() {
    this.began = { wall: performance.now(), moment: this.moment };
  }
  turn() {
    this.isPlaying = !this.isPlaying;
    at('play').textContent = this.isPlaying ? 'Pause' : 'Play';
    if (!this.isPlaying) return;
    if (this.moment >= this.length) this.go(0);
    this.begin();
    requestAnimationFrame(now => this.tick(now));
  }
  tick(now) {
    if (!this.isPlaying) return;
    const { wall, moment } = this.began, speed = Number(at('speed').value);
    const to = moment + Math.max(now - wall, 0) * speed;
    const shownAt = this.times[this.screens.count - 1], next = this.times[this.screens.count];
    if (at('skip').checked && next > to && to - shownAt > LONGEST_PAUSE * speed) this.seek(next);
    else this.go(to);
    if (this.moment >= this.length) this.turn();
    else requestAnimationFrame(later => this.tick(later));
  }
  // By number, since several changes may come in one millisecond; the first is no change. Within a
  // pause the change before is the one that is shown.
  change(isNext) {
    const { count } = this.screens, isInPause = this.times[count - 1] < this.moment;
    const to = isNext ? count + 1 : isInPause ? count : count - 1;
    if (to < 2 || to > this.times.length) return;
    this.moment = this.times[to - 1];
    this.show(to);
    this.begin();
  }
  draw() {
    const canvas = at('overview'), pen = canvas.getContext('2d');
    const bytes = new Float64Array(canvas.width);
    for (const { time, data } of this.film.messages.slice(1)) {
      bytes[Math.min(canvas.width - 1, Math.floor(time / Math.max(1, this.length) * canvas.width))] += data.length;
    }
    const most = bytes.reduce((most, some) => Math.max(most, some), 1);
    pen.fillStyle = getComputedStyle(document.documentElement).getPropertyValue('--mark');
    bytes.forEach((some, x) => {
      if (some === 0) return;
      const high = Math.max(3, canvas.height * Math.log1p(some) / Math.log1p(most));
      pen.fillRect(x, canvas.height - high, 1, high);
    });
  }
  save() {
    const link = document.createElement('a');
    link.href = at('screen').toDataURL('image/png');
    link.download = `${this.film.name || 'recording'} ${clockOf(this.moment).replaceAll(':', '-')}.png`;
    link.click();
  }
  mark() {
    location.hash = 'at=' + this.moment;
  }
}

function linked(player) {
  const found = /^#at=(\d+)$/.exec(location.hash);
  if (found) player.seek(Number(found[1]));
}

// Keys that act again while they are held.
const HELD = ['p', 'n', '+', '-', 'ArrowLeft', 'ArrowRight'];

function fill() {
  if (document.fullscreenElement) document.exitFullscreen();
  else if (document.fullscreenEnabled) at('stage').requestFullscreen().catch(() => {});
}

function listen(player) {
  const faster = step => {
    const speed = at('speed'), index = speed.selectedIndex + step;
    if (index >= 0 && index < speed.options.length) speed.selectedIndex = index;
    player.begin();
  };
  const keys = {
    ' ': () => player.turn(), k: () => player.turn(), p: () => player.change(false), n: () => player.change(true),
    Home: () => player.seek(0), End: () => player.seek(player.length), '+': () => faster(1), '-': () => faster(-1),
    ArrowLeft: shift => player.seek(player.moment - (shift ? 10000 : 1000)),
    ArrowRight: shift => player.seek(player.moment + (shift ? 10000 : 1000)),
    s: () => player.save(), f: fill, l: () => player.mark(),
  };
  document.addEventListener('keydown', event => {
    const key = event.key.length === 1 ? event.key.toLowerCase() : event.key, act = keys[key];
    const isControl = event.target.matches('select, button, [type=checkbox]') && [' ', 'Home', 'End'].includes(event.key);
    if (!act || isControl || event.target === at('speed') || event.ctrlKey || event.altKey || event.metaKey) return;
    event.preventDefault();
    if (!event.repeat || HELD.includes(key)) act(event.shiftKey);
  });
  at('moment').addEventListener('input', () => player.seek(Number(at('moment').value)));
  at('overview').addEventListener('click', ({ offsetX }) =>
    player.seek(offsetX / at('overview').clientWidth * player.length));
  at('play').addEventListener('click', () => player.turn());
  at('before').addEventListener('click', () => player.change(false));
  at('next').addEventListener('click', () => player.change(true));
  at('speed').addEventListener('change', () => player.begin());
  at('link').addEventListener('click', () => player.mark());
  at('save').addEventListener('click', () => player.save());
  at('full').addEventListener('click', fill);
  at('full').hidden = !document.fullscreenEnabled;
  addEventListener('hashchange', () => linked(player));
}

function start() {
  try {
    const shown = film(decoded(at('recording').textContent));
    at('recording').remove();
    const player = new Player(shown);
    document.title = shown.name || 'Recording';
    at('name').textContent = document.title;
    at('facts').textContent = `${shown.width} by ${shown.height} pixels, ${shown.messages.length - 1} messages in ${clockOf(player.length)}`;
    at('moment').max = player.length;
    player.draw();
    player.go(0);
    listen(player);
    linked(player);
  } catch (error) {
    at('fault').textContent = "The recording can't be shown: " + error.message;
    at('fault').hidden = false;
  }
}

start();
</script>
</body>
</html>
"##;
