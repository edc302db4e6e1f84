//! The page, its style and its script.

/// The page, in HTML.
pub const PAGE: &str = r##"<!doctype html>
<html lang="en">
<head>
<meta charset="utf-8">
<meta name="viewport" content="width=device-width, initial-scale=1">
<meta name="referrer" content="no-referrer">
<title>Recording</title>
<link rel="icon" href="data:,">
<link rel="stylesheet" href="live.css">
</head>
<body>
<header><h1 id="name">Recording</h1><span id="facts"></span> <span id="watching"></span></header>
<main>
<noscript><p>This page needs JavaScript.</p></noscript>
<div id="stage">
<div id="fault" hidden><span id="reason" role="alert"></span> <button id="again" type="button" hidden>Try again</button></div>
<canvas id="screen" width="640" height="480" role="img" aria-label="The screen"></canvas>
</div>
<canvas id="overview" width="1000" height="32" aria-hidden="true"></canvas>
<input id="moment" type="range" min="0" max="0" value="0" step="1" aria-label="Moment of the recording">
<p class="bar">
<button id="play" type="button">Pause</button>
<button id="live" type="button" aria-pressed="true">Live</button>
<b id="state" role="status">Loading. If this stays, load the page again.</b>
<output id="clock" for="moment" aria-live="off"></output>
<span id="behind"></span>
</p>
<p class="bar">
<button id="before" type="button">Change before</button>
<button id="next" type="button">Next change</button>
<label>Speed <select id="speed">
<option value="0.25">1/4</option><option value="0.5">1/2</option><option value="1" selected>1</option>
<option value="2">2</option><option value="5">5</option><option value="20">20</option><option value="100">100</option>
</select></label>
<label><input id="skip" type="checkbox"> Skip pauses</label>
<button id="link" type="button">Link to this moment</button>
<button id="save" type="button">Save picture</button>
<button id="full" type="button">Full screen</button>
<span id="notice" role="status"></span>
</p>
</main>
<footer><kbd>Space</kbd> plays and pauses. <kbd>L</kbd> goes to what is live. <kbd>&larr;</kbd> <kbd>&rarr;</kbd>
go a second, with <kbd>Shift</kbd> ten. <kbd>P</kbd> <kbd>N</kbd> go to the change before and to the next.
<kbd>Home</kbd> <kbd>End</kbd> go to the ends. <kbd>+</kbd> <kbd>-</kbd> change the speed. <kbd>S</kbd> saves a
picture, <kbd>F</kbd> fills the screen.</footer>
<script src="painter.js"></script>
<script src="live.js"></script>
</body>
</html>
"##;

/// Its style.
pub const STYLE: &str =
    r##":root { color-scheme: light dark; --ink: #1c1c1c; --paper: #fff; --dim: #5c5c5c; --bar: #e6e6e6; --mark: #2f6fa8; --fault: #b00020; }
@media (prefers-color-scheme: dark) { :root { --ink: #e8e8e8; --paper: #181818; --dim: #a8a8a8; --bar: #333; --mark: #6aaee0; --fault: #ff7a8a; } }
* { box-sizing: border-box; }
body { margin: 0; font: 1rem/1.5 system-ui, sans-serif; color: var(--ink); background: var(--paper); }
header, main, footer { max-width: 90rem; margin: 0 auto; padding: 0 1rem; }
h1 { display: inline; font-size: 1.1rem; margin: 0 1rem 0 0; overflow-wrap: anywhere; }
#stage { background: #000; text-align: center; }
#stage:fullscreen #fault { position: fixed; inset: 0 0 auto; }
#stage:fullscreen canvas { width: 100vw; height: 100vh; max-height: none; object-fit: contain; }
#screen { max-width: 100%; max-height: max(60vh, 100vh - 18rem); vertical-align: top; }
#overview { display: block; width: 100%; height: 2rem; margin-top: .5rem; background: var(--bar); cursor: pointer; }
#moment { display: block; width: 100%; height: 2.5rem; margin: 0; accent-color: var(--mark); touch-action: pan-y; }
.bar { display: flex; flex-wrap: wrap; gap: .5rem 1rem; align-items: center; margin: .5rem 0; }
label { display: inline-flex; align-items: center; gap: .4rem; min-height: 2.5rem; }
button, select { font: inherit; min-height: 2.5rem; padding: 0 .8rem; }
[type=checkbox] { width: 1.25rem; height: 1.25rem; }
[aria-pressed=true] { color: var(--paper); background: var(--mark); }
#clock, #behind { font-variant-numeric: tabular-nums; }
#fault { padding: .5rem; border: 2px solid var(--fault); background: var(--paper); text-align: start; }
footer, #facts, #watching { color: var(--dim); font-size: .9rem; }
#watching { margin-left: .5rem; }
kbd { padding: 0 .3em; border: 1px solid var(--dim); border-radius: 3px; font: inherit; }
@media (pointer: coarse) { footer { display: none; } }
"##;

/// Its script.
pub const SCRIPT: &str = r##"'use strict';

// A pixel of a canvas as it is sent: red first, and a fourth byte that says nothing.
const color = pixel => pixel | OPAQUE;

// 32 bits, the lowest byte first, red in the lowest one.
const FORMAT = [32, 24, 0, 1, 0, 255, 0, 255, 0, 255, 0, 8, 16, 0, 0, 0];
// CopyRect, Hextile, RRE, Raw.
const ENCODINGS = [1, 5, 2, 0];

// How long an answer may take, how long a greeting may, and how long nothing may come after that,
// in milliseconds: the recorder tells how the session stands each 5 seconds at least, also while it
// looks for what it is to show.
const LONGEST_ANSWER = 10000, LONGEST_GREETING = 40000, LONGEST_SILENCE = 15000;

// What the page asks for. Browsers refuse addresses with the name and password by which the page itself may
// have been opened, and have them without.
function addressOf(target) {
  const address = new URL(target, location.href);
  address.username = address.password = '';
  return address;
}

// A session of RFB 3.8 (RFC 6143) over a WebSocket. Its owner is told what comes: `opened`, `heard`,
// `glimpsed`, `painted`; and how it ends: `closed` or `failed`.
class Session {
  // The recorder shows what is `live`, what is `played` from a moment on, the screen that stands
  // `still` at one, or what is `stepped` through.
  constructor(query, mode, owner) {
    this.mode = mode;
    this.owner = owner;
    this.input = new Reader(new Uint8Array(0));
    this.painter = null;
    this.status = null;
    this.hasPainted = false;
    this.isAsked = false;
    this.hasOpened = false;
    this.isOver = false;
    // How many orders were given, how many of them are obeyed, and those that wait for the handshake.
    this.orders = this.obeyed = 0;
    this.unsent = [];
    // How the recorder plays, unless it is told otherwise.
    this.pace = 1000;
    this.longestPause = null;
    this.heardAt = this.askedAt = performance.now();
    this.steps = this.run();
    const address = addressOf('watch' + query);
    address.protocol = address.protocol.replace('http', 'ws');
    this.socket = new WebSocket(address);
    this.socket.binaryType = 'arraybuffer';
    this.socket.onopen = () => { this.hasOpened = true; };
    this.socket.onmessage = ({ data }) => this.receive(data);
    this.socket.onclose = ({ code, reason }) => {
      this.isOver = true;
      owner.closed(code, reason);
    };
  }
  end() {
    this.isOver = true;
    this.socket.onmessage = this.socket.onclose = null;
    this.socket.close();
  }
  send(...bytes) { this.socket.send(new Uint8Array(bytes)); }
  tell(order) { this.socket.send(JSON.stringify(order)); }
  // Orders wait until the handshake is over.
  order(...orders) {
    this.orders += orders.length;
    this.askedAt = performance.now();
    if (this.painter) orders.forEach(order => this.tell(order)); else this.unsent.push(...orders);
    this.ask();
  }
  // The orders by which the recorder plays so from now on, if it doesn't yet.
  ordersToPlay(pace, longestPause) {
    const orders = [];
    if (pace !== this.pace) orders.push({ pace });
    if (longestPause !== this.longestPause) orders.push({ 'longest-pause': longestPause });
    Object.assign(this, { pace, longestPause });
    return orders;
  }
  // Asks for the next update, unless that was done, or nobody looks.
  ask() {
    if (!this.painter || this.isAsked || document.hidden) return;
    const { width, height } = this.painter;
    this.send(3, this.hasPainted ? 1 : 0, 0, 0, 0, 0, width >> 8, width & 255, height >> 8, height & 255);
    this.isAsked = true;
    this.askedAt = performance.now();
  }
  // Whether the connection is lost, whatever the browser says: an answer that must come, or any sign
  // of life, has taken too long. An update needn't come while the host is quiet, nor a greeting while
  // the recording is opened.
  get isOverdue() {
    const isAwaited = !this.hasPainted || this.obeyed < this.orders;
    const isDue = !this.hasOpened || this.isAsked && isAwaited;
    const longest = isDue ? LONGEST_ANSWER : this.painter ? LONGEST_SILENCE : LONGEST_GREETING;
    return !this.isOver && performance.now() > Math.max(this.heardAt, this.askedAt) + longest;
  }
  receive(data) {
    this.heardAt = performance.now();
    try {
      if (typeof data === 'string') {
        this.status = JSON.parse(data);
        this.owner.heard(this.status);
      } else {
        this.input.push(new Uint8Array(data));
        this.steps.next();
      }
    } catch (error) {
      this.end();
      this.owner.failed(error.message);
    }
  }
  *run() {
    yield* this.greet();
    for (;;) {
      while (this.input.left < 1) yield;
      const type = this.input.u8();
      if (type !== 0) throw new Error('unknown message ' + type);
      const { status } = this, update = this.painter.update(this.input);
      while (!update.next().done) {
        this.owner.glimpsed(this.painter, status);
        yield;
      }
      this.isAsked = false;
      this.hasPainted = true;
      this.obeyed = status.orders;
      this.owner.painted(this.painter, status);
    }
  }
  *greet() {
    const { input } = this;
    while (input.left < 12) yield;
    input.take(12);
    this.send(...new TextEncoder().encode('RFB 003.008\n'));
    while (input.left < 1) yield;
    const types = input.u8();
    // Who is turned away is told so once more, by how the connection is closed.
    while (types === 0) yield;
    while (input.left < types) yield;
    input.take(types);
    this.send(1);
    while (input.left < 4) yield;
    if (input.u32() !== 0) throw new Error(yield* this.text());
    this.send(1);
    while (input.left < 20) yield;
    const width = input.u16(), height = input.u16();
    input.take(16);
    const name = yield* this.text();
    this.send(0, 0, 0, 0, ...FORMAT);
    this.send(2, 0, 0, ENCODINGS.length, ...ENCODINGS.flatMap(encoding => [0, 0, 0, encoding]));
    this.painter = new Painter(width, height);
    this.owner.opened(this.painter, name);
    this.unsent.forEach(order => this.tell(order));
    this.ask();
  }
  *text() {
    while (this.input.left < 4) yield;
    const length = this.input.u32();
    while (this.input.left < length) yield;
    return new TextDecoder().decode(this.input.take(length));
  }
}

// Text that is the same isn't written again: a reader of screens would say it again.
function say(id, text) {
  if (at(id).textContent !== text) at(id).textContent = text;
}

// What is wrong, of each kind the last; whether a person may try again.
const faults = new Map();

function complain(kind, text, mayTry = false) {
  faults.set(kind, { text, mayTry });
  tellFaults();
}

function forgive(kind) {
  faults.delete(kind);
  tellFaults();
}

function tellFaults() {
  const all = [...faults.values()];
  at('fault').hidden = all.length === 0;
  at('again').hidden = !all.some(({ mayTry }) => mayTry);
  say('reason', all.map(({ text }) => text).join(' '));
}

// How long a notice stays, in milliseconds, and what takes it away.
const NOTICE = 6000;
let noticing;

// What came of an act that shows nothing by itself.
function notice(text) {
  say('notice', text);
  clearTimeout(noticing);
  noticing = setTimeout(() => say('notice', ''), NOTICE);
}

const sentence = text => text.slice(0, 1).toUpperCase() + text.slice(1) + '.';

// How long a pause is shown if pauses are skipped, in milliseconds of the clock on the wall.
const LONGEST_PAUSE = 1000;
// How long the first attempt to connect again waits, and how long any does at most, in milliseconds.
const FIRST_DELAY = 1000, LONGEST_DELAY = 8000;
// What is likely if only connections are refused: by what, no browser tells.
const LIKELY = ' The server answers, but lets no viewer in. Load the page again, since a login may have '
  + 'expired; a web server before the recorder has to pass on Host, Origin and Upgrade.';
// How often a long update is shown before it is whole, in milliseconds.
const GLIMPSE = 100;
// How long the address waits for further steps, in milliseconds: browsers bound how often it is changed.
const ADDRESS_DELAY = 400;

const speed = () => Number(at('speed').value);
// In thousandths of the original.
const pace = () => Math.round(1000 * speed());
// In milliseconds of the recording; null if no pause is skipped.
const longestPause = () => at('skip').checked ? Math.round(LONGEST_PAUSE * speed()) : null;

// The canvas, on which a painter's screen is put.
class Picture {
  constructor(canvas) {
    this.canvas = canvas;
    this.pen = canvas.getContext('2d', { alpha: false });
    this.putAt = 0;
    // Whether it shows one screen, and not a part of the next.
    this.isWhole = false;
  }
  open({ width, height, pixels }) {
    if (this.canvas.width !== width || this.canvas.height !== height) {
      Object.assign(this.canvas, { width, height });
      this.isWhole = false;
    }
    this.image = new ImageData(new Uint8ClampedArray(pixels.buffer), width, height);
  }
  put({ box: { left, top, right, bottom } }) {
    this.pen.putImageData(this.image, 0, 0, left, top, right - left, bottom - top);
    this.putAt = performance.now();
    this.isWhole = true;
  }
  putAll() {
    this.pen.putImageData(this.image, 0, 0);
    this.putAt = performance.now();
    this.isWhole = true;
  }
  glimpse(painter) {
    if (performance.now() <= this.putAt + GLIMPSE) return;
    this.put(painter);
    this.isWhole = false;
  }
  save(name) {
    this.canvas.toBlob(picture => {
      const link = document.createElement('a');
      link.href = URL.createObjectURL(picture);
      link.download = name;
      link.click();
      setTimeout(() => URL.revokeObjectURL(link.href), 10000);
    });
  }
}

// How a connection ends after which another one is tried: it goes away, it is lost, there is no seat.
const LOST = [1001, 1006], RETRIED = [...LOST, 4001];
// How it ends if the recorder parts from all: what is said of that until it is there again.
const PARTED = {
  1000: 'The recorder has ended.',
  1011: 'The recorder is short of memory.',
  4003: 'The recorder is ending.',
};

// What is watched: live, or from a moment on. It keeps that over connections that come and go.
class Player {
  constructor(overview) {
    this.overview = overview;
    this.picture = new Picture(at('screen'));
    this.isLive = true;
    this.isPaused = false;
    this.isConnected = false;
    this.isLost = false;
    this.isDragged = false;
    this.attempts = 0;
    // How many connections in a row never opened, and whether other requests were answered then.
    this.unopened = 0;
    this.isRefused = false;
    // What is said since the recorder has parted.
    this.parting = null;
    // Of the recording: how long it is, in milliseconds, and if its host has ended, once that is known.
    this.length = 0;
    this.hasEnded = null;
    // Whether its end stands here because it was live until then, and goes on if it does.
    this.standsAtEnd = false;
    // What the clock shows, in milliseconds of the recording, and when it was right.
    this.moment = 0;
    this.rightAt = { wall: 0, moment: 0 };
    // What the recorder said of the screen that is shown.
    this.shown = null;
    // What the recorder was asked for, by how many orders: a moment, or null for a message. And the
    // moment to ask for after it.
    this.sought = null;
    this.wanted = null;
    // How long the recording was when it was last asked for a message: what comes later isn't shown
    // change by change, until it is asked for.
    this.steppedTo = 0;
  }

  // -- Connections.

  // Connects to what is to be shown.
  watch() {
    this.wanted = null;
    this.sought = this.isLive ? null : { moment: this.moment, orders: 0 };
    if (this.isLive) return this.connect('', 'live');
    if (this.isPaused) return this.connect('?at=' + this.moment, 'still');
    const pause = longestPause();
    this.connect(`?at=${this.moment}&pace=${pace()}` + (pause === null ? '' : '&longest-pause=' + pause), 'played');
    Object.assign(this.session, { pace: pace(), longestPause: pause });
  }
  connect(query, mode) {
    this.isLost = false;
    clearTimeout(this.retry);
    this.session?.end();
    this.session = new Session(query, mode, this);
  }
  closed(code, reason) {
    this.isConnected = false;
    this.unopened = this.session.hasOpened ? 0 : this.unopened + 1;
    const isLost = LOST.includes(code);
    if (!isLost) this.parting = PARTED[code] ?? null;
    const text = isLost ? 'The connection is lost.' : reason && code >= 4000 ? sentence(reason)
      : `The recorder closed the connection: ${reason || 'code ' + code}.`;
    if (this.parting) this.part();
    else if (RETRIED.includes(code)) this.lose(text);
    else complain('connection', text, true);
    showState(this);
  }
  failed(message) {
    this.isConnected = false;
    complain('connection', `What came can't be shown: ${message}.`, true);
    showState(this);
  }
  lose(text) {
    if (this.unopened < 2) this.isRefused = false;
    else if (!this.isRefused) this.suspect();
    const likely = this.isRefused ? LIKELY : '';
    complain('connection', text + ' This page goes on by itself as soon as it can.' + likely);
    this.goOnAfter(Math.min(FIRST_DELAY * 2 ** this.attempts++, LONGEST_DELAY));
  }
  async suspect() {
    const answer = await timesFrom(this.overview.next, this.overview.every).catch(() => null);
    this.isRefused = answer !== null && answer.status < 500;
  }
  // A recorder that was started again goes on with the recording. What is said stays meanwhile.
  part() {
    const stays = this.shown ? ' What was shown last stays.' : '';
    complain('connection', `${this.parting}${stays} This page tries again by itself.`, true);
    this.goOnAfter(LONGEST_DELAY);
  }
  goOnAfter(delay) {
    this.isLost = true;
    this.retry = setTimeout(() => this.goOn(), delay);
  }
  // Goes on after a loss, or after the page was hidden.
  goOn() {
    if (document.hidden) return;
    if (this.isLost) return this.watch();
    if (this.session.mode !== 'stepped' || this.sought) this.session.ask();
    this.overview.follow(this.length, this);
  }
  // Nothing else is answered either: if nothing came since, the connection is lost, whatever the browser says.
  missed(since) {
    if (this.session.isOver || this.session.heardAt > since) return;
    this.session.end();
    this.closed(1006);
  }

  // -- What comes.

  opened(painter, name) {
    this.picture.open(painter);
    document.title = name || 'Recording';
    say('name', document.title);
    say('facts', `${painter.width} by ${painter.height} pixels`);
  }
  heard({ length, watching, ended }) {
    if (length < this.length) this.overview.forget();
    this.length = length;
    say('watching', watching === 1 ? '1 viewer' : watching + ' viewers');
    const wasEnded = this.hasEnded;
    this.hasEnded = ended;
    if (wasEnded === null) this.isRecorded = ended;
    if (this.isLive) this.moment = length;
    if (ended && this.isLive) this.stopLive(wasEnded === null);
    if (!ended && this.standsAtEnd) this.goLive();
    if (ended !== wasEnded) showState(this); else showClock(this);
    this.overview.follow(length, this);
  }
  // Nothing is live any more: the last screen stays. A recording that had ended before the page was
  // opened begins at its first one.
  stopLive(isAtFirst) {
    this.isLive = false;
    this.isPaused = true;
    this.standsAtEnd = true;
    if (isAtFirst) this.want(0);
  }
  // Shows a long update as it comes, but no half of a screen over another that is whole.
  glimpsed(painter, status) {
    const isNext = this.session.hasPainted && !this.sought;
    if (isNext || !this.shown && !this.isOld(status)) this.picture.glimpse(painter);
  }
  // Whether the recorder said this before it knew of what is sought.
  isOld({ orders }) { return this.sought !== null && orders < this.sought.orders; }
  // What is old is painted, and isn't shown.
  painted(painter, status) {
    const isOld = this.isOld(status);
    if (!isOld) this.show(painter, status);
    if (isOld || this.session.mode !== 'stepped') this.session.ask();
  }
  show(painter, status) {
    const isNew = !this.isConnected, { sought } = this;
    if (sought || isNew) this.picture.putAll(); else this.picture.put(painter);
    at('screen').dataset.message = status.message;
    this.isConnected = true;
    this.attempts = 0;
    this.parting = null;
    this.shown = status;
    if (isNew) forgive('connection');
    if (sought) this.arrive(status);
    else if (['played', 'stepped'].includes(this.session.mode)) this.stand(status.time);
    if (this.isPaused) this.acted();
    else if (isNew || sought) showState(this);
    else showClock(this);
    this.catchUp(status);
  }
  arrive({ time }) {
    const { moment } = this.sought;
    this.sought = null;
    if (this.wanted !== null) this.send(this.wanted);
    else this.stand(this.isLive ? this.length : Math.max(time, moment ?? 0));
  }
  // The clock is right.
  stand(moment) {
    this.moment = Math.min(moment, this.length);
    this.rightAt = { wall: performance.now(), moment };
  }
  // Whoever has seen all is live, or at the end.
  catchUp({ time }) {
    if (this.isLive || this.isPaused || this.sought || time < this.length) return;
    if (this.hasEnded) this.stop(); else this.goLive();
  }
  // Until something comes, the clock goes on by itself.
  tick() {
    if (this.session.isOverdue) return this.missed(performance.now());
    if (this.isLive || this.isPaused || this.sought || !this.isConnected) return;
    const { wall, moment } = this.rightAt, passed = performance.now() - wall;
    const to = moment + (longestPause() === null ? passed : Math.min(passed, LONGEST_PAUSE)) * speed();
    this.moment = Math.min(Math.round(to), this.length);
    showClock(this);
    this.catchUp({ time: this.moment });
  }

  // -- What is wanted.

  // Has the recorder show this moment, and play on from it unless it is paused. It goes on standing
  // still if it does.
  send(to) {
    const { session, isPaused } = this, wasStill = session.mode === 'still';
    const orders = isPaused ? [] : session.ordersToPlay(pace(), longestPause());
    if (isPaused && !wasStill) orders.push({ pause: true });
    orders.push({ at: to });
    if (!isPaused && wasStill) orders.push({ pause: false });
    session.mode = isPaused ? 'still' : 'played';
    session.order(...orders);
    this.sought = { moment: to, orders: session.orders };
    this.wanted = null;
  }
  // One moment is asked for at a time; after it the one that was wanted last.
  want(to) {
    this.standsAtEnd = false;
    this.moment = Math.round(Math.min(Math.max(to, 0), this.length));
    if (this.sought) this.wanted = this.moment; else this.send(this.moment);
  }
  seek(to) {
    if (to >= this.length && !this.hasEnded) return this.goLive();
    this.isLive = false;
    this.want(to);
    this.acted();
  }
  goLive() {
    if (this.hasEnded) return this.seek(this.length);
    this.isLive = true;
    this.isPaused = false;
    this.standsAtEnd = false;
    this.wanted = null;
    this.moment = this.length;
    this.session.mode = 'live';
    this.session.order({ live: true });
    this.sought = { moment: null, orders: this.session.orders };
    this.acted();
  }
  // What is played goes on at the new pace, from the moment that the clock shows.
  changePace() {
    if (!this.isLive && !this.isPaused) this.want(this.moment);
  }
  turn() {
    if (this.isPaused) this.play(); else this.stop();
  }
  stop() {
    this.isLive = false;
    this.isPaused = true;
    this.want(this.moment);
    this.acted();
  }
  play() {
    this.isPaused = false;
    if (this.hasEnded && this.moment >= this.length) this.moment = 0;
    this.want(this.moment);
    this.acted();
  }
  // Changes are looked at one by one, so it stops.
  change(isNext) {
    const { session, shown } = this;
    if (!session.hasPainted || this.sought) return;
    const isAtEnd = shown.time >= this.length;
    if (isNext ? this.isLive || isAtEnd && !this.hasEnded : shown.message <= 1) return;
    this.isLive = false;
    this.isPaused = true;
    if (isNext && session.mode === 'stepped' && (isAtEnd || shown.time < this.steppedTo)) session.ask();
    else this.step(shown.message + (isNext ? 1 : -1));
    showState(this);
  }
  step(message) {
    this.standsAtEnd = false;
    this.session.mode = 'stepped';
    this.session.order({ message });
    this.steppedTo = this.length;
    this.sought = { moment: null, orders: this.session.orders };
  }
  acted() {
    showState(this);
    const address = this.isLive ? '#live' : this.address;
    clearTimeout(this.marking);
    this.marking = setTimeout(() => this.mark(address), ADDRESS_DELAY);
  }
  get address() { return '#at=' + this.moment; }
  mark(address) {
    clearTimeout(this.marking);
    history.replaceState(null, '', address);
  }
  // What is on the canvas, by its own time: the clock may be further, or at what is sought.
  save() {
    const isComing = this.isConnected && this.sought;
    if (isComing || !this.picture.isWhole) notice('Nothing is saved: the screen is still to come.');
    else this.picture.save(`${document.title} ${clockOf(this.shown.time).replaceAll(':', '-')}.png`);
  }
  async link() {
    this.mark(this.address);
    const copying = navigator.clipboard?.writeText(addressOf(this.address).href);
    const isCopied = copying && await copying.then(() => true, () => false);
    notice(isCopied ? 'The link is copied.' : "The link is this page's address now.");
  }
}

// What changes all the time, and isn't told to a reader of screens by itself.
function showClock({ moment, length, isLive, hasEnded, isDragged }) {
  const slider = at('moment'), late = isLive || hasEnded ? 0 : length - moment;
  if (!isDragged) {
    slider.max = length;
    slider.value = moment;
  }
  const name = 'aria-valuetext', spoken = isLive ? 'live' : secondsOf(moment);
  if (slider.getAttribute(name) !== spoken) slider.setAttribute(name, spoken);
  say('clock', clockOf(moment) + ' of ' + clockOf(length));
  say('behind', late < 1000 ? '' : secondsOf(late) + ' behind live');
}

// A recording that is no session any more when the page is opened may still be written by another recorder.
function endOf({ hasEnded, isRecorded }) {
  return !hasEnded ? '' : isRecorded ? '. Not live.' : '. Nothing more is recorded.';
}

function showState(player) {
  const { isLive, isPaused, hasEnded } = player;
  showClock(player);
  at('live').setAttribute('aria-pressed', isLive);
  at('live').disabled = hasEnded === true;
  say('play', isPaused ? 'Play' : 'Pause');
  say('state', stateOf(player) + endOf(player));
}

function stateOf({ shown, isLive, isPaused }) {
  if (faults.has('connection')) return 'Not connected';
  if (!shown) return 'Connecting';
  return isLive ? 'Live' : isPaused ? 'Paused' : 'Playing';
}

// How often is looked for what came since, at most, in milliseconds.
const LOOK = 5000;
// In how many parts of the recording updates are counted, at most; and at first, so that one answer, of
// at most 1,024 stretches, tells all. None is shorter than this, in milliseconds.
const PARTS = 2048, FIRST_PARTS = 1020, SHORTEST_PART = 1000;

// The recorder answers, and tells nothing.
class Refusal extends Error {}

// Why, in words: a web server between may answer with a page of its own.
async function reasonOf(answer) {
  const isText = answer.headers.get('Content-Type')?.startsWith('text/plain');
  return isText ? (await answer.text()).trim() : 'the answer was ' + answer.status;
}

const timesFrom = (block, every) =>
  fetch(addressOf(`times?from=${block}&every=${every}`), { signal: AbortSignal.timeout(LONGEST_ANSWER) });

// A color of the style; none, if that didn't load.
const colorOf = name => getComputedStyle(document.documentElement).getPropertyValue(name);

// How many updates came when, over the whole recording: in each of as many milliseconds as `every`.
class Overview {
  constructor() {
    this.forget();
    this.lookedAt = -LOOK;
    this.isFollowing = false;
  }
  // Begins anew: with another recording, after a connection to another recorder.
  forget() {
    this.counts = new Float64Array(PARTS);
    this.every = SHORTEST_PART;
    // The block that is asked for next; how long the recording was when that was asked last, and is.
    this.next = 0;
    this.seen = -1;
    this.length = 0;
  }
  // Looks for what came since, until it has seen a recording that is so long.
  async follow(length, player) {
    this.length = Math.max(this.length, length);
    if (this.isFollowing) return;
    this.isFollowing = true;
    const isWanted = () => this.seen < this.length && !document.hidden && !player.session.isOver;
    while (isWanted()) {
      await new Promise(done => setTimeout(done, this.lookedAt + LOOK - performance.now()));
      if (!isWanted() || !await this.look(player)) break;
    }
    this.isFollowing = false;
  }
  // Whether that was told. If there was no answer, the connection may be lost; not if it was refused,
  // as it is while as many ask as are answered at a time.
  async look(player) {
    const began = this.lookedAt = performance.now();
    try {
      await this.load();
      return true;
    } catch (error) {
      if (error instanceof Refusal) complain('times', error.message);
      else if (error.name === 'TimeoutError') player.missed(began);
      return false;
    }
  }
  // Takes all that had come when it was answered: mostly in one answer, since the recorder counts in
  // the same parts.
  async load() {
    if (this.next === 0) this.every = Math.max(SHORTEST_PART, Math.ceil(this.length / FIRST_PARTS));
    const { counts } = this;
    for (let isWhole = false; !isWhole;) {
      const answer = await timesFrom(this.next, this.every);
      if (!answer.ok) throw new Refusal(`What came when isn't known: ${await reasonOf(answer)}.`);
      const { messages, length, stretches, next } = await answer.json(), last = stretches.at(-1);
      if (counts !== this.counts) return;
      stretches.forEach(({ time, updates }) => this.count(time, updates));
      this.next = next;
      this.seen = Math.max(this.seen, length);
      this.draw();
      isWhole = !last || last.message + last.updates >= messages;
    }
    forgive('times');
  }
  count(time, updates) {
    while (time >= PARTS * this.every) this.widen();
    this.counts[Math.floor(time / this.every)] += updates;
  }
  // Each part is twice as long: two of the parts of before, so nothing is asked for again.
  widen() {
    const { counts } = this;
    for (let part = 0; part < PARTS / 2; part++) counts[part] = counts[2 * part] + counts[2 * part + 1];
    counts.fill(0, PARTS / 2);
    this.every *= 2;
  }
  // The updates in each of so many columns, at most: none is shorter than a second. What came later
  // than the slider's end, as in a recording that was opened again since, isn't among them.
  columns(most) {
    const wide = Math.max(1, Math.min(most, Math.ceil(this.length / 1000)));
    const columns = new Float64Array(wide), each = this.every * wide / Math.max(1, this.length);
    this.counts.forEach((updates, part) => {
      const isShown = updates > 0 && part * this.every <= this.length;
      if (isShown) columns[Math.min(wide - 1, Math.floor(part * each))] += updates;
    });
    return columns;
  }
  draw() {
    const canvas = at('overview'), pen = canvas.getContext('2d'), columns = this.columns(canvas.width);
    const most = columns.reduce((most, some) => Math.max(most, some), 1), wide = canvas.width / columns.length;
    pen.clearRect(0, 0, canvas.width, canvas.height);
    pen.fillStyle = colorOf('--mark');
    columns.forEach((updates, x) => {
      if (updates === 0) return;
      const high = Math.max(3, canvas.height * Math.log1p(updates) / Math.log1p(most));
      pen.fillRect(x * wide, canvas.height - high, wide, high);
    });
  }
}

// Looks if the recorder can be reached at all, when the browser's network has come or gone.
async function probe(player) {
  const began = performance.now();
  try {
    await timesFrom(player.overview.next, player.overview.every);
  } catch {
    player.missed(began);
  }
}

// The moment that the address names, or null.
function linked() {
  const found = /^#at=(\d{1,15})$/.exec(location.hash);
  return found && Math.min(Number(found[1]), 2 ** 32 - 1);
}

function follow(player) {
  const moment = linked();
  if (moment === null) return player.goLive();
  player.isPaused = true;
  player.seek(moment);
}

function faster(player, step) {
  const speed = at('speed'), index = speed.selectedIndex + step;
  if (index >= 0 && index < speed.options.length) speed.selectedIndex = index;
  player.changePace();
}

function fill() {
  forgive('full');
  if (document.fullscreenElement) document.exitFullscreen();
  else if (document.fullscreenEnabled) {
    at('stage').requestFullscreen().catch(() => complain('full', 'The browser refuses to fill the screen.'));
  }
}

// Keys that act again while they are held.
const HELD = ['p', 'n', '+', '-', 'ArrowLeft', 'ArrowRight'];

function listenToKeys(player) {
  const keys = {
    ' ': () => player.turn(), k: () => player.turn(), l: () => player.goLive(),
    p: () => player.change(false), n: () => player.change(true),
    Home: () => player.seek(0), End: () => player.goLive(),
    '+': () => faster(player, 1), '-': () => faster(player, -1),
    ArrowLeft: shift => player.seek(player.moment - (shift ? 10000 : 1000)),
    ArrowRight: shift => player.seek(player.moment + (shift ? 10000 : 1000)),
    s: () => player.save(), f: fill,
  };
  document.addEventListener('keydown', event => {
    const key = event.key.length === 1 ? event.key.toLowerCase() : event.key, act = keys[key];
    const isControl = event.target.matches('select, button, [type=checkbox]') && [' ', 'Home', 'End'].includes(event.key);
    if (!act || isControl || event.target === at('speed') || event.ctrlKey || event.altKey || event.metaKey) return;
    event.preventDefault();
    if (!event.repeat || HELD.includes(key)) act(event.shiftKey);
  });
}

function listen(player) {
  const on = (id, name, act) => at(id).addEventListener(name, act);
  on('moment', 'input', () => player.seek(Number(at('moment').value)));
  on('moment', 'pointerdown', () => { player.isDragged = true; });
  const letGo = () => { player.isDragged = false; };
  addEventListener('pointerup', letGo);
  addEventListener('pointercancel', letGo);
  on('overview', 'click', ({ offsetX }) => player.seek(offsetX / at('overview').clientWidth * player.length));
  on('play', 'click', () => player.turn());
  on('live', 'click', () => player.goLive());
  on('before', 'click', () => player.change(false));
  on('next', 'click', () => player.change(true));
  on('speed', 'change', () => player.changePace());
  on('skip', 'change', () => player.changePace());
  on('link', 'click', () => player.link());
  on('save', 'click', () => player.save());
  on('full', 'click', fill);
  on('again', 'click', () => player.watch());
  at('full').hidden = !document.fullscreenEnabled;
}

// Loads a part of the page again that didn't load, until it has: the recorder may have been asked
// for too much at a time.
function load(kind, attributes, act) {
  const part = Object.assign(document.createElement(kind), attributes);
  part.onload = act;
  part.onerror = () => {
    part.remove();
    setTimeout(() => load(kind, attributes, act), FIRST_DELAY);
  };
  document.head.append(part);
}

function start() {
  const overview = new Overview(), player = new Player(overview), moment = linked();
  if (moment !== null) Object.assign(player, { isLive: false, isPaused: true, moment });
  player.watch();
  say('state', stateOf(player));
  listen(player);
  listenToKeys(player);
  addEventListener('hashchange', () => follow(player));
  addEventListener('online', () => player.isLost ? player.goOn() : probe(player));
  addEventListener('offline', () => probe(player));
  document.addEventListener('visibilitychange', () => player.goOn());
  matchMedia('(prefers-color-scheme: dark)').addEventListener('change', () => overview.draw());
  const isCalm = matchMedia('(prefers-reduced-motion: reduce)').matches;
  setInterval(() => player.tick(), isCalm ? 1000 : 100);
  const style = { rel: 'stylesheet', href: 'live.css' };
  if (!colorOf('--mark')) load('link', style, () => overview.draw());
}

if (typeof Painter === 'undefined') load('script', { src: 'painter.js' }, start); else start();
"##;
