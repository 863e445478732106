//! The files, made of web/ by tools/page-files.

ghost use Rattle.std.specs.Prelude.{◌≡◌, map};
ghost use Rattle.web_page.specs.Paths.{path_of, paths};

use page_files::PageFile;

// How many there are.
const COUNT: usize = 38;

/// All of them, in the order of their paths.
pub(crate) fn all() -> [PageFile; COUNT]
    ensures { map path_of result ≡ paths }
{
    [
        PageFile {
            path: "/address.js",
            kind: "text/javascript; charset=utf-8",
            body: address_js(),
        },
        PageFile {
            path: "/cells.js",
            kind: "text/javascript; charset=utf-8",
            body: cells_js(),
        },
        PageFile {
            path: "/choices.js",
            kind: "text/javascript; charset=utf-8",
            body: choices_js(),
        },
        PageFile {
            path: "/clock.js",
            kind: "text/javascript; charset=utf-8",
            body: clock_js(),
        },
        PageFile {
            path: "/display.js",
            kind: "text/javascript; charset=utf-8",
            body: display_js(),
        },
        PageFile {
            path: "/faces.js",
            kind: "text/javascript; charset=utf-8",
            body: faces_js(),
        },
        PageFile {
            path: "/follow.js",
            kind: "text/javascript; charset=utf-8",
            body: follow_js(),
        },
        PageFile {
            path: "/font.js",
            kind: "text/javascript; charset=utf-8",
            body: font_js(),
        },
        PageFile {
            path: "/index.html",
            kind: "text/html; charset=utf-8",
            body: index_html(),
        },
        PageFile {
            path: "/instructions.js",
            kind: "text/javascript; charset=utf-8",
            body: instructions_js(),
        },
        PageFile {
            path: "/keyboard.js",
            kind: "text/javascript; charset=utf-8",
            body: keyboard_js(),
        },
        PageFile {
            path: "/keysyms.js",
            kind: "text/javascript; charset=utf-8",
            body: keysyms_js(),
        },
        PageFile {
            path: "/layers.js",
            kind: "text/javascript; charset=utf-8",
            body: layers_js(),
        },
        PageFile {
            path: "/main.js",
            kind: "text/javascript; charset=utf-8",
            body: main_js(),
        },
        PageFile {
            path: "/messages.js",
            kind: "text/javascript; charset=utf-8",
            body: messages_js(),
        },
        PageFile {
            path: "/outbox.js",
            kind: "text/javascript; charset=utf-8",
            body: outbox_js(),
        },
        PageFile {
            path: "/palette.js",
            kind: "text/javascript; charset=utf-8",
            body: palette_js(),
        },
        PageFile {
            path: "/paste.js",
            kind: "text/javascript; charset=utf-8",
            body: paste_js(),
        },
        PageFile {
            path: "/play.css",
            kind: "text/css; charset=utf-8",
            body: play_css(),
        },
        PageFile {
            path: "/play.html",
            kind: "text/html; charset=utf-8",
            body: play_html(),
        },
        PageFile {
            path: "/play.js",
            kind: "text/javascript; charset=utf-8",
            body: play_js(),
        },
        PageFile {
            path: "/player.js",
            kind: "text/javascript; charset=utf-8",
            body: player_js(),
        },
        PageFile {
            path: "/request.js",
            kind: "text/javascript; charset=utf-8",
            body: request_js(),
        },
        PageFile {
            path: "/rest.js",
            kind: "text/javascript; charset=utf-8",
            body: rest_js(),
        },
        PageFile {
            path: "/save.js",
            kind: "text/javascript; charset=utf-8",
            body: save_js(),
        },
        PageFile {
            path: "/scrollback.js",
            kind: "text/javascript; charset=utf-8",
            body: scrollback_js(),
        },
        PageFile {
            path: "/selection.js",
            kind: "text/javascript; charset=utf-8",
            body: selection_js(),
        },
        PageFile {
            path: "/share.js",
            kind: "text/javascript; charset=utf-8",
            body: share_js(),
        },
        PageFile {
            path: "/sharp.js",
            kind: "text/javascript; charset=utf-8",
            body: sharp_js(),
        },
        PageFile {
            path: "/socket.js",
            kind: "text/javascript; charset=utf-8",
            body: socket_js(),
        },
        PageFile {
            path: "/speech.js",
            kind: "text/javascript; charset=utf-8",
            body: speech_js(),
        },
        PageFile {
            path: "/style.css",
            kind: "text/css; charset=utf-8",
            body: style_css(),
        },
        PageFile {
            path: "/textlayer.js",
            kind: "text/javascript; charset=utf-8",
            body: textlayer_js(),
        },
        PageFile {
            path: "/timer.js",
            kind: "text/javascript; charset=utf-8",
            body: timer_js(),
        },
        PageFile {
            path: "/touch.js",
            kind: "text/javascript; charset=utf-8",
            body: touch_js(),
        },
        PageFile {
            path: "/tunnel.js",
            kind: "text/javascript; charset=utf-8",
            body: tunnel_js(),
        },
        PageFile {
            path: "/view.js",
            kind: "text/javascript; charset=utf-8",
            body: view_js(),
        },
        PageFile {
            path: "/ways.js",
            kind: "text/javascript; charset=utf-8",
            body: ways_js(),
        },
    ]
}

// `/address.js`.
fn address_js() -> &'static str {
    "\
// Addresses of pages in the rows of a terminal, which a click with Control opens, or with Command on a Mac.

import { placeAt } from './selection.js';

// What may stand in an address (RFC 3986, section 2, and letters of all scripts, RFC 3987), and the sign for a character
// that isn't known, of which no address can be read.
const ADDRESS = /\\bhttps?:\\/\\/[\\p{L}\\p{M}\\p{N}\\ufffd\\-._~%:/?#[\\]@!$&'()*+,;=]+/giu;
const OPENED = { ')': '(', ']': '[' };

const count = (text, sign) => text.split(sign).length - 1;

// A sign that ends a sentence, and a bracket that was opened before the address, aren't of it (RFC 3986, appendix C).
function withoutEnd(text) {
  const last = text.at(-1);
  const isOver = /[.,;:!?']/.test(last) || (last in OPENED && count(text, OPENED[last]) < count(text, last));
  return isOver ? withoutEnd(text.slice(0, -1)) : text;
}

/** The address that stands at a place of a text, or null. @param {string} text @param {number} place */
export function addressAt(text, place) {
  for (const { 0: found, index } of text.matchAll(ADDRESS)) {
    const address = withoutEnd(found);
    if (place < index || place > index + address.length) continue;
    try {
      return address.includes('\\ufffd') ? null : new URL(address).href;
    } catch {
      return null;
    }
  }
  return null;
}

const isRow = (element) => element?.className === 'line';

// The rows that go on in each other around one: what fills a row goes on in the next.
function rowsAround(row, columns) {
  const isFull = (element) => isRow(element) && element.textContent.length >= columns;
  const rows = [row];
  while (isFull(rows[0].previousElementSibling)) rows.unshift(rows[0].previousElementSibling);
  while (isFull(rows[rows.length - 1]) && isRow(rows[rows.length - 1].nextElementSibling)) rows.push(rows[rows.length - 1].nextElementSibling);
  return rows;
}

// How many characters stand before a place, from the beginning of a row on.
function lengthUpTo(row, { node, offset }) {
  const before = document.createRange();
  before.setStart(row, 0);
  before.setEnd(node, offset);
  return before.toString().length;
}

/** Opens the address at which a person clicks, and shows where one stands. */
export class Addresses {
  #columns;

  /** @param {HTMLElement} element whose rows are looked at @param {boolean} isMac @param {() => number} columns of a full row */
  constructor(element, isMac, columns) {
    this.#columns = columns;
    const at = (event) => ((isMac ? event.metaKey : event.ctrlKey) ? this.#at(event) : null);
    element.addEventListener('click', (event) => {
      const address = at(event);
      if (address !== null) open(address, '_blank', 'noopener,noreferrer');
    });
    element.addEventListener('mousemove', (event) => { element.toggleAttribute('data-address', at(event) !== null); });
    addEventListener('keyup', () => { element.removeAttribute('data-address'); });
  }

  #at({ clientX, clientY }) {
    const place = placeAt(clientX, clientY);
    const node = place?.node instanceof Element ? place.node : place?.node.parentElement;
    const row = node?.closest('.line');
    if (!row) return null;
    const rows = rowsAround(row, this.#columns());
    const before = rows.slice(0, rows.indexOf(row)).reduce((sum, it) => sum + it.textContent.length, 0);
    return addressAt(rows.map((it) => it.textContent).join(''), before + lengthUpTo(row, place));
  }
}
"
}

// `/cells.js`.
fn cells_js() -> &'static str {
    "\
// What stands in the cells of the visible layer, kept beside `Layers` as instructions are played: a buffer is read
// once after it was painted, and a copy of it is then known; a copy of the visible layer over itself moves rows. What
// is drawn in another way is read from its pixels. A cell is a number; those whose pixels are alike are equal.

import { BOX, CELL_HEIGHT, CELL_WIDTH, LEFT, RIGHT, seenAt } from './font.js';
import { indexOf } from './palette.js';

/** A cell that shows no picture of the font, or has a colour past the 256th. */
export const PICTURE = -1;
const UNREAD = -2;

/** The number of a cell. Its face is below 2^14. @returns {number} */
export function cellOf(face, ink, paper, isUnderlined) {
  return (face << 17) | (isUnderlined ? 1 << 16 : 0) | (ink << 8) | paper;
}

/** The face of a cell, a code point, BOX, LEFT or RIGHT. */
export const faceOf = (cell) => cell >> 17;
/** The indices of its colours, and whether it is underlined. */
export const inkOf = (cell) => (cell >> 8) & 0xff;
export const paperOf = (cell) => cell & 0xff;
export const isUnderlined = (cell) => (cell & 0x10000) !== 0;

/** A blank cell of a screen at its start. */
export const BLANK = cellOf(0x20, 0, 0, false);

function characterOf(cell) {
  if (cell === PICTURE) return '\\u2592';
  const face = faceOf(cell);
  if (face === BOX || face === LEFT) return '\\ufffd';
  return face === RIGHT ? ' ' : String.fromCharCode(face);
}

/** The characters of cells as `look` writes them, without the blanks at their end: the box is U+FFFD, a character that
 *  takes two cells U+FFFD and a blank, and a picture U+2592. @param {Int32Array} cells */
export function textOf(cells) {
  let text = '';
  for (const cell of cells) text += characterOf(cell);
  return text.replace(/ +$/, '');
}

function readAt(pixels, at, width) {
  const seen = seenAt(pixels, at, width);
  if (seen === null) return PICTURE;
  const [ink, paper] = [indexOf(seen.ink), indexOf(seen.paper)];
  return ink < 0 || paper < 0 ? PICTURE : cellOf(seen.face, ink, paper, seen.isUnderlined);
}

/** The cells of a picture, read from its pixels. */
export function cellsOf(pixels, width, height) {
  const [columns, rows] = [Math.floor(width / CELL_WIDTH), Math.floor(height / CELL_HEIGHT)];
  return Int32Array.from({ length: columns * rows }, (_, k) => readAt(pixels, Math.floor(k / columns) * CELL_HEIGHT * width + (k % columns) * CELL_WIDTH, width));
}

/** The cells of a screen that gets another size: those that both sizes have stay, and no other is known. */
export function refitted(cells, from, columns, rows) {
  const fitted = new Int32Array(columns * rows).fill(UNREAD);
  for (let y = 0; y < rows && y * from < cells.length; y++) fitted.set(cells.subarray(y * from, y * from + Math.min(from, columns)), y * columns);
  return fitted;
}

/** The cells of the visible layer. It watches a `Layers`, which is given to it as `layers`. */
export class Cells {
  columns = 0;
  rows = 0;
  cells = new Int32Array(0);
  /** @type {import('./layers.js').Layers | undefined} */
  layers;
  // The cell that a buffer shows whole, by its layer.
  #buffers = new Map();
  #hasUnread = false;
  // What was there at the sync before, by which a screen that was drawn anew is known.
  #before = new Int32Array(0);
  #hasMoved = false;
  // A whole picture comes in the place of frames, which aren't kept for ever.
  #isWhole = false;
  #isCut = false;
  /** @type {(Int32Array | null)[]} */
  #gone = [];
  #dirty = nowhere();

  // The watcher's part: each is told before the pixels change.

  sized(layer, width, height) {
    this.#buffers.delete(layer);
    if (layer !== this.layers.visible) return;
    this.#isWhole = true;
    this.#dirty = { left: 0, top: 0, right: width, bottom: height };
    this.#refit(Math.floor(width / CELL_WIDTH), Math.floor(height / CELL_HEIGHT));
  }

  filled(layer) {
    this.#buffers.delete(layer);
    if (layer !== this.layers.visible) return;
    for (const { x, y, width, height } of layer.path) this.#forget(x, y, width, height);
  }

  copied(from, x, y, width, height, to, toX, toY) {
    const { visible } = this.layers;
    if (to !== visible) this.#buffers.delete(to);
    else if (from === visible) this.#move(x, y, width, height, toX, toY);
    else if (x === 0 && y === 0 && width === CELL_WIDTH && height === CELL_HEIGHT && this.#isCell(toX, toY)) this.#put(this.#shownBy(from), toX, toY);
    else this.#forget(toX, toY, width, height);
  }

  /** At a sync: reads what isn't known yet, and sees whether lines went by that nobody was shown. */
  settle() {
    this.#read();
    const isMissing = this.#isWhole ? this.#isCut || this.#isOther() : !this.#hasMoved && this.#isAnew();
    if (isMissing) this.#gone.push(null);
    this.#before.set(this.cells);
    this.#hasMoved = false;
    this.#isWhole = false;
    this.#isCut = false;
  }

  /** The lines that have left the screen at its top since the last call, and null where lines may be missing. */
  takeGone() {
    const gone = this.#gone;
    this.#gone = [];
    return gone;
  }

  /** The rectangle of pixels that may have changed since the last call. */
  takeDirty() {
    const { left, top, right, bottom } = this.#dirty;
    this.#dirty = nowhere();
    return { x: left, y: top, width: Math.max(right - left, 0), height: Math.max(bottom - top, 0) };
  }

  /** The cells of a row. */
  row(y) {
    return this.cells.subarray(y * this.columns, (y + 1) * this.columns);
  }

  #isCell(x, y) {
    return x % CELL_WIDTH === 0 && y % CELL_HEIGHT === 0 && x < this.columns * CELL_WIDTH && y < this.rows * CELL_HEIGHT;
  }

  #shownBy(buffer) {
    let cell = this.#buffers.get(buffer);
    if (cell === undefined) {
      const isWhole = buffer.width >= CELL_WIDTH && buffer.height >= CELL_HEIGHT;
      this.#buffers.set(buffer, cell = isWhole ? readAt(buffer.pixels, 0, buffer.width) : UNREAD);
    }
    // Clear pixels of a picture leave what is there, so the cell itself has to be looked at.
    return cell === PICTURE ? UNREAD : cell;
  }

  #put(cell, x, y) {
    this.#touch(x, y, CELL_WIDTH, CELL_HEIGHT);
    this.cells[(y / CELL_HEIGHT) * this.columns + x / CELL_WIDTH] = cell;
    if (cell === UNREAD) this.#hasUnread = true;
  }

  #touch(x, y, width, height) {
    const dirty = this.#dirty;
    const { visible } = this.layers;
    dirty.left = Math.min(dirty.left, x);
    dirty.top = Math.min(dirty.top, y);
    dirty.right = Math.max(dirty.right, Math.min(x + width, visible.width));
    dirty.bottom = Math.max(dirty.bottom, Math.min(y + height, visible.height));
  }

  #forget(x, y, width, height) {
    this.#touch(x, y, width, height);
    this.#hasUnread = true;
    const right = Math.min(Math.ceil((x + width) / CELL_WIDTH), this.columns);
    const bottom = Math.min(Math.ceil((y + height) / CELL_HEIGHT), this.rows);
    const left = Math.floor(x / CELL_WIDTH);
    for (let row = Math.floor(y / CELL_HEIGHT); row < bottom && left < right; row++) this.cells.fill(UNREAD, row * this.columns + left, row * this.columns + right);
  }

  // Rows that go up from the top to the bottom of the screen leave it; of any other copy the cells are read anew.
  #move(x, y, width, height, toX, toY) {
    const { visible } = this.layers;
    const isWhole = x === 0 && toX === 0 && toY === 0 && width === visible.width && y % CELL_HEIGHT === 0 && y + height === visible.height;
    if (!isWhole || y === 0 || this.columns === 0) return this.#forget(toX, toY, width, height);
    this.#read();
    const lines = y / CELL_HEIGHT;
    for (let row = 0; row < lines; row++) this.#gone.push(this.row(row).slice());
    this.cells.copyWithin(0, lines * this.columns);
    this.#hasMoved = true;
    this.#touch(0, 0, width, height);
  }

  // Of another size the screen keeps the cells that both sizes have, as their pixels stay. Rows with characters may be
  // cut off below.
  #refit(columns, rows) {
    if (columns === this.columns && rows === this.rows) return;
    if (this.#before.subarray(rows * this.columns).some((cell) => faceOf(cell) !== 0x20)) this.#isCut = true;
    this.#before = refitted(this.#before, this.columns, columns, rows);
    Object.assign(this, { columns, rows, cells: refitted(this.cells, this.columns, columns, rows) });
    this.#hasUnread = true;
  }

  #read() {
    if (!this.#hasUnread) return;
    this.#hasUnread = false;
    const { pixels, width } = this.layers.visible;
    this.cells.forEach((cell, k) => {
      if (cell !== UNREAD) return;
      const [x, y] = [k % this.columns, Math.floor(k / this.columns)];
      this.cells[k] = readAt(pixels, y * CELL_HEIGHT * width + x * CELL_WIDTH, width);
    });
  }

  // Whether a character is another one than it was at the sync before.
  #isOther() {
    return this.cells.some((cell, k) => this.#before[k] !== UNREAD && faceOf(cell) !== faceOf(this.#before[k]));
  }

  // Whether every row that has a character, before or now, is another one, and some had one: then so many lines may
  // have gone by that none of them was moved.
  #isAnew() {
    const { columns, cells } = this;
    let had = 0;
    for (let y = 0; y < this.rows; y++) {
      let [isSame, isBlank, wasBlank] = [true, true, true];
      for (let k = y * columns; k < (y + 1) * columns; k++) {
        if (cells[k] !== this.#before[k]) isSame = false;
        if (faceOf(cells[k]) !== 0x20) isBlank = false;
        if (faceOf(this.#before[k]) !== 0x20) wasBlank = false;
      }
      if (isSame && !isBlank) return false;
      if (!wasBlank) had++;
    }
    return had > 1;
  }
}

const nowhere = () => ({ left: Infinity, top: Infinity, right: 0, bottom: 0 });
"
}

// `/choices.js`.
fn choices_js() -> &'static str {
    "\
// What a person chooses of how the terminal is shown, kept by the browser from one visit to the next.

const KEY = 'guacgate';

/**
 * @typedef {object} Choices
 * @property {'sharp' | 'exact'} text  a font of the browser, or the gateway's pixels
 * @property {number} size  the size of the font in pixels of the page, or 0 for what fits the window
 * @property {number} lines  how many lines are kept above the screen
 * @property {boolean} speaks  whether new lines are said
 * @property {boolean} asks  whether it is asked before several lines are pasted
 */

/** @type {Choices} */
export const FIRST = { text: 'sharp', size: 0, lines: 10000, speaks: true, asks: true };

/** The sizes of the font that can be chosen, and the numbers of lines. */
export const SIZES = [0, 10, 12, 14, 16, 18, 20, 24, 28, 32];
export const LINES = [0, 1000, 10000, 50000];

/** Choices as they were kept; what isn't one counts as it does at first. @returns {Choices} */
export function choicesOf(text) {
  let kept = {};
  try { kept = JSON.parse(text) ?? {}; } catch { /* Another page of this address may have kept something else. */ }
  return {
    text: kept.text === 'exact' ? 'exact' : FIRST.text,
    size: SIZES.includes(kept.size) ? kept.size : FIRST.size,
    lines: LINES.includes(kept.lines) ? kept.lines : FIRST.lines,
    speaks: typeof kept.speaks === 'boolean' ? kept.speaks : FIRST.speaks,
    asks: typeof kept.asks === 'boolean' ? kept.asks : FIRST.asks,
  };
}

/** The choices that the browser has kept. */
export function kept() {
  try { return choicesOf(localStorage.getItem(KEY)); } catch { return FIRST; }
}

/** Keeps choices, where the browser lets pages do so. @param {Choices} choices */
export function keep(choices) {
  try { localStorage.setItem(KEY, JSON.stringify(choices)); } catch { /* They hold for this visit alone. */ }
}

/** Fills the form of the choices, and tells of each change. */
export function choose(form, choices, changed) {
  const options = (name, values, words) => form.elements[name].replaceChildren(...values.map((value) => new Option(words(value), String(value))));
  options('size', SIZES, (size) => (size === 0 ? 'fits the window' : `${size} pixels`));
  options('lines', LINES, (lines) => (lines === 0 ? 'none' : lines.toLocaleString('en')));
  const fill = () => {
    form.elements.text.value = choices.text;
    form.elements.size.value = String(choices.size);
    form.elements.lines.value = String(choices.lines);
    form.elements.speaks.checked = choices.speaks;
    form.elements.asks.checked = choices.asks;
  };
  const set = (next) => {
    choices = next;
    fill();
    keep(choices);
    changed(choices);
  };
  form.addEventListener('change', () => set({
    text: form.elements.text.value,
    size: Number(form.elements.size.value),
    lines: Number(form.elements.lines.value),
    speaks: form.elements.speaks.checked,
    asks: form.elements.asks.checked,
  }));
  fill();
  return { get now() { return choices; }, change: (part) => set({ ...choices, ...part }) };
}
"
}

// `/clock.js`.
fn clock_js() -> &'static str {
    "\
// A clock for a tab that nobody sees: a browser lets the timers of such a page come once a minute, and a worker's go on.

let timer = 0;
onmessage = ({ data }) => {
  clearTimeout(timer);
  timer = setTimeout(() => postMessage(data), data);
};
"
}

// `/display.js`.
fn display_js() -> &'static str {
    "\
// The terminal that a person sees. What is drawn is shown at a sync, in one paint, so no half picture is ever seen: as
// sharp text or as the gateway's own pixels, with the same characters as text over them, and the lines that have gone
// up above them.

import { Cells, faceOf, paperOf, refitted, textOf } from './cells.js';
import { CELL_HEIGHT, CELL_WIDTH } from './font.js';
import { Layers } from './layers.js';
import { Scrollback } from './scrollback.js';
import { FAMILY, Sharp, advance, cellFor, sizeFor } from './sharp.js';
import { TextLayer } from './textlayer.js';

/** The room that the frame around the terminal takes, in pixels of the page, both sides together. */
const MARGIN = 20;
// The font whose advance is about the width of the gateway's cell.
const EXACT_FONT = 13;
// The font of a session that follows the window, in pixels of the page, and what such a session has at least; and both
// on a phone, where 80 columns couldn't be read.
const DESK = { font: 15, least: { columns: 80, rows: 24 } };
const PHONE = { font: 13, least: { columns: 40, rows: 12 } };
const PHONE_SIDE = 600;
// How long a size that was told may take until it is shown, in milliseconds.
const SOON = 600;

/** A terminal that shows the layers of a view at each of its syncs, in the room that it has. */
export class Display {
  #elements;
  #choices;
  #speech;
  #context;
  #sharp;
  #text;
  #scrollback;
  #cells = new Cells();
  #layers = new Layers();
  // The cells as they were shown last.
  #shown = new Int32Array(0);
  #columns = 0;
  #cursor = -1;
  #isAtEnd = true;
  // Whether the screen is higher than its room, and whether it is wider.
  #isHigh = false;
  #isWide = false;
  #ratio = advance();
  #fits;
  // What the window was when it was last told for what it has room, and its room while no keyboard lies over it.
  #window = '';
  #open = { width: 0, height: 0 };
  #waiting = 0;
  /** Whether the session follows the window. */
  follows = false;

  /**
   * @param {(id: string) => any} element  gives the elements of the page by their IDs
   * @param {import('./choices.js').Choices} choices @param {import('./speech.js').Speech} speech
   * @param {(size: import('./follow.js').Size) => void} fits  is told for how many columns and rows the window has room,
   *   whenever the window or its font is another one
   */
  constructor(element, choices, speech, fits) {
    const elements = Object.fromEntries(['screen', 'scrollback', 'terminal', 'picture', 'sharp', 'text', 'keys'].map((id) => [id, element(id)]));
    this.#elements = elements;
    this.#choices = choices;
    this.#speech = speech;
    this.#fits = fits;
    this.#context = elements.picture.getContext('2d', { alpha: false, willReadFrequently: true });
    this.#sharp = new Sharp(elements.sharp);
    this.#text = new TextLayer(elements.text);
    this.#scrollback = new Scrollback(elements.scrollback);
    this.#scrollback.most = choices.lines;
    elements.screen.style.setProperty('--family', FAMILY);
    elements.screen.addEventListener('scroll', () => { this.#isAtEnd = this.#isEndShown(); }, { passive: true });
    new ResizeObserver(() => this.#refit()).observe(elements.screen);
    // Lines that come into sight are laid out then, and may be higher than they were taken for.
    new ResizeObserver(() => { if (this.#isAtEnd) this.#stayAtEnd(); }).observe(elements.scrollback);
    this.#watchRatio();
    this.clear();
  }

  /** What is drawn begins anew, with layers that have no pixels. What is shown stays until the next sync, and lines may be
   *  missing between them. */
  renew() {
    this.#cells = new Cells();
    this.#layers = this.#cells.layers = new Layers(this.#cells);
    this.#scrollback.add([null]);
  }

  /** Begins anew, with nothing above a black screen. */
  clear() {
    this.renew();
    this.#shown = new Int32Array(0);
    this.#columns = 0;
    this.#cursor = -1;
    this.#scrollback.clear();
    this.#text.clear();
    this.#sharp.clear();
    this.#context.clearRect(0, 0, this.#elements.picture.width, this.#elements.picture.height);
  }

  set choices(choices) {
    this.#choices = choices;
    this.#scrollback.most = choices.lines;
    this.#fit();
  }

  /** The columns and rows that are shown. */
  get size() {
    return { columns: this.#columns, rows: this.#columns && this.#shown.length / this.#columns };
  }

  /** The columns and rows for which the window has room, which are told too: again, or only where it is another window.
   *  @returns {import('./follow.js').Size} */
  measured(isAgain = true) {
    if (isAgain) this.#window = '';
    this.#tellRoom();
    return this.#roomFor();
  }

  #roomFor() {
    const { font, least } = isPhone() ? PHONE : DESK;
    return sizeFor(this.#room(), this.#cell({ columns: 1, rows: 1 }, this.#choices.size || font), least);
  }

  /** Draws an instruction, and answers whether it is one that draws. Nothing is seen of it before `show`. */
  draw(instruction) {
    return this.#layers.draw(instruction);
  }

  /** Ends a frame. */
  settle() {
    this.#cells.settle();
  }

  /** Shows what was drawn, at a sync. */
  show() {
    const { width, height } = this.#layers.visible;
    if (width === 0 || height === 0) return;
    const { cells, columns } = this.#cells;
    const isOther = columns !== this.#columns || cells.length !== this.#shown.length;
    const before = isOther ? refitted(this.#shown, this.#columns, columns, cells.length / columns) : this.#shown;
    if (isOther) this.#turn(columns, cells.length / columns);
    this.#shown = cells.slice();
    this.#columns = columns;
    this.#paintExact();
    if (isOther) this.#fit();
    else if (this.#choices.text === 'sharp') this.#sharp.show(this.#shown, this.#pictureAt);
    const gone = this.#cells.takeGone();
    const lines = /** @type {Int32Array[]} */ (gone.filter((it) => it !== null));
    this.#text.show(this.#shown, columns, lines.length);
    this.#scrollback.add(gone);
    this.#speech.note(this.#text.lines, lines.map(textOf));
    const cursor = cursorOf(this.#shown, columns, before, this.#cursor);
    if (cursor !== this.#cursor) this.#placeKeys(cursor);
    if ((gone.length > 0 || this.#isHigh) && this.#isAtEnd) this.#stayAtEnd();
  }

  // The screen has another size: its lines are cut off, and the cursor keeps its column and row as far as they are there.
  #turn(columns, rows) {
    this.#speech.cut(columns);
    if (this.#cursor < 0) return;
    const [x, y] = [this.#cursor % this.#columns, Math.floor(this.#cursor / this.#columns)];
    this.#cursor = Math.min(y, rows - 1) * columns + Math.min(x, columns - 1);
  }

  /** Goes to the screen, below all lines that have left it, and to the cursor where the screen is wider than its room. */
  toEnd() {
    if (!this.#isAtEnd) this.#stayAtEnd();
    if (this.#isWide) this.#elements.keys.scrollIntoView({ block: 'nearest', inline: 'nearest' });
  }

  #stayAtEnd() {
    this.#elements.screen.scrollTop = this.#end();
  }

  // How far the page is scrolled at its end: to the last line, or to the cursor's where the screen is higher than its room.
  #end() {
    const { screen, terminal, keys } = this.#elements;
    // Both are rounded, and nothing is scrolled further than to the end.
    const last = screen.scrollHeight - screen.clientHeight + 1;
    if (!this.#isHigh) return last;
    const [top, bottom] = [terminal.getBoundingClientRect().top, keys.getBoundingClientRect().bottom].map((it) => it - screen.getBoundingClientRect().top + screen.scrollTop);
    return Math.min(last, Math.max(top - MARGIN / 2, bottom + MARGIN / 2 - screen.clientHeight));
  }

  /** Goes up or down by so many pages, or to the first line. */
  scroll(pages) {
    const { screen } = this.#elements;
    this.#scrollTo(pages === -Infinity ? 0 : screen.scrollTop + pages * (screen.clientHeight - this.#lineHeight()));
  }

  /** Goes up or down by so many lines. */
  scrollLines(lines) {
    this.#scrollTo(this.#elements.screen.scrollTop + lines * this.#lineHeight());
  }

  #scrollTo(top) {
    this.#elements.screen.scrollTop = top;
    this.#isAtEnd = this.#isEndShown();
  }

  // A window that goes to another screen may keep its size.
  #watchRatio() {
    matchMedia(`(resolution: ${devicePixelRatio}dppx)`).addEventListener('change', () => { this.#fit(); this.#watchRatio(); }, { once: true });
  }

  #lineHeight() {
    return this.#elements.text.firstElementChild?.getBoundingClientRect().height ?? CELL_HEIGHT;
  }

  #isEndShown() {
    return this.#end() - this.#elements.screen.scrollTop < 4;
  }

  // What changed of the gateway's pixels. The canvas of a screen of another size is painted whole.
  #paintExact() {
    const { width, height, pixels } = this.#layers.visible;
    const { picture } = this.#elements;
    let dirty = this.#cells.takeDirty();
    if (picture.width !== width || picture.height !== height) {
      Object.assign(picture, { width, height });
      dirty = { x: 0, y: 0, width, height };
    }
    if (dirty.width > 0) this.#context.putImageData(new ImageData(new Uint8ClampedArray(pixels.buffer), width, height), 0, 0, dirty.x, dirty.y, dirty.width, dirty.height);
  }

  #pictureAt = (x, y) => new Uint32Array(this.#context.getImageData(x * CELL_WIDTH, y * CELL_HEIGHT, CELL_WIDTH, CELL_HEIGHT).data.buffer);

  // The room that the window has for a screen, in pixels of the device. A keyboard on the screen takes height alone, and
  // comes and goes as a person types; the room is then what it was without it.
  #room() {
    const { clientWidth: width, offsetHeight: height } = this.#elements.screen;
    const isTyping = document.activeElement === this.#elements.keys && matchMedia('(pointer: coarse)').matches;
    this.#open = { width, height: isTyping && width === this.#open.width ? Math.max(height, this.#open.height) : height };
    return { width: (width - MARGIN) * devicePixelRatio, height: (this.#open.height - MARGIN) * devicePixelRatio };
  }

  // The cell of a screen, for a font of the size that is wanted, or 0 for one that fits.
  #cell({ columns, rows }, wanted) {
    const room = this.#room();
    if (this.#choices.text === 'exact') return this.#exactCell(room, columns, rows, wanted);
    return cellFor({ columns, rows, room, wanted: wanted * devicePixelRatio, ratio: this.#ratio });
  }

  // A window that is told once has to change before it is told again, so that no message below the terminal, and no size
  // of another viewer, is taken for its change.
  #tellRoom() {
    const now = [innerWidth, innerHeight, devicePixelRatio, this.#choices.text, this.#choices.size].join();
    if (now === this.#window) return;
    this.#window = now;
    this.#fits(this.#roomFor());
  }

  // A session that follows the window has another size soon. Until then all stays as large as it is, so that the text
  // doesn't grow and shrink while a window is drawn larger; where no size comes, it fits then.
  #refit() {
    if (this.#elements.screen.clientWidth === 0) return;
    const { columns, rows } = this.measured(false);
    const isSame = columns === this.#columns && rows === this.size.rows;
    clearTimeout(this.#waiting);
    if (!this.follows || isSame || this.#columns === 0) return this.#fit();
    this.#elements.screen.toggleAttribute('data-turning', true);
    this.#waiting = setTimeout(() => this.#fit(), SOON);
  }

  // Chooses the size of a cell, and lays all that is shown over each other.
  #fit() {
    const { screen, terminal } = this.#elements;
    clearTimeout(this.#waiting);
    screen.toggleAttribute('data-turning', false);
    if (screen.clientWidth === 0) return;
    this.#tellRoom();
    if (this.#columns === 0) return;
    const { columns, rows } = this.size;
    const isExact = this.#choices.text === 'exact';
    const cell = this.#cell({ columns, rows }, this.#choices.size);
    const [width, height] = [cell.width / devicePixelRatio, cell.height / devicePixelRatio];
    const set = (name, value) => screen.style.setProperty(name, `${value}px`);
    set('--cell-width', width);
    set('--cell-height', height);
    set('--font', cell.font / devicePixelRatio);
    set('--width', columns * width);
    set('--spacing', 0);
    set('--spacing', width - this.#advance());
    Object.assign(terminal.style, { width: `${columns * width}px`, height: `${rows * height}px` });
    screen.dataset.text = this.#choices.text;
    if (!isExact) {
      this.#sharp.fit(columns, rows, cell);
      this.#sharp.show(this.#shown, this.#pictureAt);
    }
    this.#isHigh = rows * height + MARGIN > screen.clientHeight;
    this.#isWide = columns * width + MARGIN > screen.clientWidth;
    this.#placeKeys(this.#cursor);
    if (this.#isAtEnd) this.#stayAtEnd();
  }

  // The gateway's cell, each pixel of which is a whole number of the device's.
  #exactCell(room, columns, rows, wanted) {
    const most = wanted ? Math.round((wanted * devicePixelRatio) / EXACT_FONT) : Math.floor(Math.min(room.width / columns / CELL_WIDTH, room.height / rows / CELL_HEIGHT));
    const factor = Math.max(1, most);
    return { width: CELL_WIDTH * factor, height: CELL_HEIGHT * factor, font: (CELL_WIDTH * factor) / this.#ratio };
  }

  // The advance of a character of the rows' font, in pixels of the page.
  #advance() {
    const probe = document.createElement('div');
    probe.className = 'line probe';
    probe.append('x'.repeat(100));
    this.#elements.scrollback.parentElement.append(probe);
    const { width } = probe.getBoundingClientRect();
    probe.remove();
    return width / 100;
  }

  // The field stands at the cursor, so that what an input method shows is seen there.
  #placeKeys(cursor) {
    this.#cursor = cursor;
    const at = Math.max(cursor, 0);
    const { style } = this.#elements.keys;
    style.setProperty('--x', String(at % this.#columns));
    style.setProperty('--y', String(Math.floor(at / this.#columns)));
  }
}

// Whether the screen of the device is a phone's.
const isPhone = () => matchMedia('(pointer: coarse)').matches && Math.min(globalThis.screen.width, globalThis.screen.height) < PHONE_SIDE;

/**
 * Where the cursor seems to be, which is drawn as a cell whose colours are exchanged: a cell whose paper is neither that
 * of the cell before it nor of the one behind it, the last of those that have changed; or else where it was. Nothing rests
 * on it but the place of what an input method shows, and which part is shown of a screen that its room is too small for.
 */
export function cursorOf(cells, columns, before, last) {
  const isOne = (k) => {
    const paper = paperOf(cells[k]);
    const isOther = (other) => other < 0 || other >= cells.length || paperOf(cells[other]) !== paper;
    return isOther(k % columns === 0 ? -1 : k - 1) && isOther((k + 1) % columns === 0 ? -1 : k + 1) && (paper !== 0 || faceOf(cells[k]) !== 0x20);
  };
  for (let k = cells.length - 1; k >= 0; k--) if (cells[k] !== before[k] && isOne(k)) return k;
  return last;
}
"
}

// `/faces.js`.
fn faces_js() -> &'static str {
    "\
// The faces beyond ASCII (docs/TERMINAL.md, \"Faces\"), made by tools/page-faces of the tables of the crates glyph_table
// and gate_model.

/** Letters with marks, and signs. Four hexadecimal digits are a character, and the pictures of it and of those next to it
 *  follow: five columns each, bit r of a column for the pixel lines 2r and 2r + 1. */
export const COLUMNS = `\\
00a1 0000fa0000 3048fe4848 907c928244 4438283844 5658f05856 0000ee0000 94aaaaaa52 0002000200 7c82baaa6c 90aaaa9abc
2050a85088 1010101070 0010100000 7cbaea927c 0202020202 040a0a0400 9090fc9090 24322a2400 222a2a1400 0000040200
fc2040207c 0c1efe02fe 0000100000 0080c00000 243e200000 9ca2a2a29c 8850a85020 2f106844f0 2f1008d4b0 553f4864f0
60908a8040 f8252624f8 f8242625f8 f8262526f8 fa252626f9 f8252425f8 f8272527f8 fc12fe9292 3ec1c14122 fc95969484
fc94969584 fc96959684 fc95949584 0085fe8400 0084fe8500 0086fd8600 0085fc8500 92fe92827c fe091222fd 7885868478
7884868578 7886858678 7a85868679 7885848578 0050205000 fce2928e7e 7c8182807c 7c8082817c 7c8281827c 7c8180817c
0408f20904 fe24242418 fc02929c60 40aaaca8f0 40a8acaaf0 40acaaacf0 42aaa8acf4 40aaa8aaf0 40aeaaaef0 48a8f0a8b0
38c4c44420 70aaaca830 70a8acaa30 70acaaac30 70aaa8aa30 008afc8000 0088fc8200 008cfa8400 008af88200 60909a947a
fa12080cf4 708a8c8870 70888c8a70 708c8a8c70 728a888c74 708a888a70 1010541010 f0c8a89878 78828440f8 78808442f8
70848244f0 78828042f8 18a0a4a278 fe50484830 18a2a0a278 f8252525f8 40aaaaaaf0 f9262626f9 42aaacaaf2 7e111191fe
205454d4f8 7884868540 70888c8a40 7886858640 708c8a8c40 7884858440 70888a8840 7885868540 708a8c8a40 fc85864138
7088fe0006 10fe92827c 708894fe04 fc95959584 70aaaaaa30 fd96969685 72aaacaa32 fc94959484 70a8aaa830 7f4949c9c1
385454d498 fc95969584 70aaacaa30 788685a660 102caaac78 798686a661 122aacaa7a 788485a460 1028aaa878 3ec1c15132
1028aeaa78 fc121112fc fc12090af0 fe141414fe 04fe1408f0 0285fe8601 028af88404 0085fd8500 008afa8200 0186fe8601
028afc8202 00417fc180 00447dc080 0084fd8400 0088f88000 fe4080827e 08fa00887a 4082857e04 40848a7c00 7f88942241
7f90a84400 f820508800 fc80828180 0084fe8100 7fc0c04040 00c1ff4000 fe80808680 0082fe8006 fe80809080 82fe800010
20fe888480 00a2fe8800 fc081221fc f8100c0af0 7f8488107f 7c88840478 fc091221fc f8120c0af0 06f81008f0 3f028c907f
3c08848478 7885858578 708a8a8a70 7986868679 728a8c8a72 7886858679 748a888c72 7c82fe9282 7088f0a8b0 fc14365588
f8100c0a10 7f89992946 7c88840408 fc15365588 f8120c0a10 8894969564 90a8acaa40 8896959664 90acaaac40 46c9c94931
48d4d45420 8895969564 90aaacaa40 0181ff0101 04bfc44020 0405fe0504 087e888046 0212fe1202 147e948440 7e8182827d
72828044f4 7c8181817c 78828242f8 7d8282827d 7a828442fa 7c8381837c 70868a46f0 7c8281827d 74828044f2 3f4040c0bf
3c4040a0fc fc423142fc 7084628470 040af10a04 10a4a2a470 0409f00904 c4a4968d84 88c8ac9a88 c4a4958c84 88c8aa9888
c4a5968d84 88caac9a88 80fc820200 2010 1010100000 0000101000 0000101010 0010101000 1010101000 1010001010 2018
001c1a0000 00160e0000 00b0700000 201c 0c0a000c0a 0a06000a06 a06000a060 2020 0808fe0808 2424fe2424 0038383800 2026
8000800080 2030 c6d608c4c2 2032 00000c0200 0806080600 2039 0020508800 0088502000 203c 00be00be00 20ac 287caaaa82 2122
020e020c0e 2190 1038541010 0804fe0408 1010543810 2040fe4020 3854105438 2442ff4224 2212 0010101010 2219 0018180000
2040fe0202 221e 3828102838 2248 4824244824 2260 a868382c2a 5454545454 2264 008894a200 00a2948800 25a0 7c7c7c7c7c
7c4444447c 25aa 7878787800 7848487800 25b2 c0f0fcf0c0 c0b08cb0c0 25b6 fe7c383810 25b8 007c381000 25ba 7c38381010 25bc
0c3cfc3c0c 0c34c4340c 25c0 1038387cfe 25c4 101038387c 25c6 1038fe3810 25cb 3844444438 2800440028 25cf 387c7c7c38 25e6
0038283800 2713 20c040300c 30e0703c0e 2717 c428304884 c66c386cc6`;

/** Line drawing and block elements, from U+2500 on: of each its bars, four hexadecimal digits each, which are the left
 *  pixel, the upper one, the width less 1 and the height less 1. */
export const BARS = `\\
072157213711 062356233613 301639163711 203629362731 070127115711 060326135613 301335133a14 203325332a34
0701270147016701 0603260346036603 3012341238123c12 2032243228322c32 572139163711 56233a153613 671129362731
66132a352633 072139163711 06233a153613 071129362731 06132a352633 301657213711 301556233613 203667112731 203566132633
072130163711 062330153613 071120362731 061320352633 3016572139163711 301556233a153613 2036671139162731
3016671129362731 2036671129362731 203566133a152633 301566132a352633 203566132a352633 0721301639163711 062330153a153613
0711203639162731 0711301629362731 0711203629362731 061320353a152633 061330152a352633 061320352a352633 0721572139163711
062357213a153613 072156233a153613 062356233a153613 0711671129362731 061367112a352633 071166132a352633 061366132a352633
0721301657213711 0623301557213613 0721301556233613 0623301556233613 0711203667112731 0613203567112633 0711203566132633
0613203566132633 07213016572139163711 0623301557213a153613 0721301556233a153613 0623301556233a153613
07112036671139162731 07113016671129362731 07112036671129362731 0613203567113a152633 0711203566133a152633
0613301567112a352633 0711301566132a352633 0613203566133a152633 0613301566132a352633 0613203567112a352633
0711203566132a352633 0613203566132a352633 07214721 06234623 30163816 20362836 062009205620592036103910
200650062906590627015701 562059203a15361039103711 671129065906270157013711 661069102a055a05260056002900590036102701
062009203a15361039103711 071129065906270157013711 061009102a055a05260056002900590036105701 301556205920361039103711
200650066711270157013711 2005500566106910260056002900590039102701 062009203015361039103711 071120065006270157013711
0610091020055005260056002900590039105701 3015562059203a15361039103711 2006500667112906590627015701
20055005661069102a055a0526005600290059002701 0620092030153a15361039103711 0711200650062906590627015701
06100910200550052a055a0526005600290059005701 06200920562059203a1536103910 0711671129065906270157013711
06100910661069102a055a0526005600290059003610 0620092030155620592036103910 0711200650066711270157013711
06100910200550056610691026005600290059003910 062009203015562059203a15361039103711 071120065006671129065906270157013711
0610091020055005661069102a055a052600560029005900 5721391647003810 0721391637003810 0721301637103800 3016572137104800
700162015401460138012a011c010e01 000112012401360148015a016c017e01
700162015401460138012a011c010e01000112012401360148015a016c017e01 07213711 30163711 57213711 39163711 06233613 20362731
56233613 29362731 072156233613 301629362731 062357213613 203639162731 0077 0e71 0c73 0a75 0877 0679 047b 027d 007f
006f 005f 004f 003f 002f 001f 000f 403f 0011401104114411081148110c114c11
00114011221162110411441126116611081148112a116a110c114c112e116e11 201160110271241164110671281168110a712c116c110e71 0071
700f 0837 4837 0037 003708374837 00374837 003740370837 003740374837 4037 40370837 403708374837`;
"
}

// `/follow.js`.
fn follow_js() -> &'static str {
    "\
// What has a session follow a window: the page tells for how many columns and rows the window has room, once the window
// has rested. Each change of a session's size is a frame for all its viewers.

/** How long a window has to rest, in milliseconds. */
const REST = 200;

/** @typedef {{ columns: number, rows: number }} Size */

const isSame = (one, other) => one?.columns === other?.columns && one?.rows === other?.rows;

/** Tells a session its sizes. One that another viewer has told stands until the own window changes. */
export class Follow {
  #tell;
  #timers;
  #timer = 0;
  // For what the window has room, what was told last, and the session's size as it was shown last.
  #room = null;
  #told = null;
  #shown = null;
  #isOn = false;

  /** `tell` is given sizes; `timers` has the calls of a browser's window for time.
   *  @param {(size: Size) => void} tell */
  constructor(tell, timers = { set: (act, time) => setTimeout(act, time), clear: (timer) => clearTimeout(timer) }) {
    this.#tell = tell;
    this.#timers = timers;
  }

  /** A session begins that has this size, or is joined, and then has none yet. @param {Size | null} opened */
  begin(opened) {
    this.#told = opened;
    this.#shown = null;
  }

  /** Whether the session follows the window. */
  set isOn(isOn) {
    this.#isOn = isOn;
    this.#rest();
  }

  /** The window has room for this size. @param {Size} size */
  fits(size) {
    if (isSame(size, this.#room)) return;
    this.#room = size;
    this.#rest();
  }

  /** The session has this size. @param {Size} size */
  shows(size) {
    const isFirst = this.#shown === null;
    this.#shown = size;
    if (isFirst) this.#rest();
  }

  #rest() {
    this.#timers.clear(this.#timer);
    this.#timer = this.#timers.set(() => this.#settle(), REST);
  }

  // What was told may be on its way yet, so that the session has another size than it shows.
  #settle() {
    if (!this.#isOn || this.#room === null || this.#shown === null) return;
    if (isSame(this.#room, this.#shown) && (this.#told === null || isSame(this.#room, this.#told))) return;
    this.#told = this.#room;
    this.#tell(this.#room);
  }
}
"
}

// `/font.js`.
fn font_js() -> &'static str {
    "\
// The gateway's font (docs/TERMINAL.md, \"Font\" and \"Faces\"), read backwards: from the pixels of a cell to its character.
// All pictures are different, so the reading is exact; a cell that shows none of them is a picture.

import { BARS, COLUMNS } from './faces.js';
import { pixelOf } from './palette.js';

/** How many pixels a cell has. */
export const CELL_WIDTH = 8;
export const CELL_HEIGHT = 16;

/** The face of a cell that shows the box, which stands for each character that the font hasn't. */
export const BOX = 0x7f;

/** The faces of the two halves of a character that takes two cells: together a box as wide as both. */
export const [LEFT, RIGHT] = [0x80, 0x81];

/** Whether a face is line drawing or a block element, which reach the edges of the cell. */
export const hasBars = (face) => face >= 0x2500 && face <= 0x259f;

// From U+0020 on, then the box and its halves, five columns each, bit r of a column for the pixel lines 2 + 2r and 3 + 2r.
const GLYPHS = `0000000000 00005F0000 0007000700 147F147F14 242A7F2A12 2313086462 3649552250 0005030000
001C224100 0041221C00 082A1C2A08 08083E0808 0050300000 0808080808 0060600000 2010080402
3E5149453E 00427F4000 4261514946 2141454B31 1814127F10 2745454539 3C4A494930 0171090503
3649494936 064949291E 0036360000 0056360000 0814224100 1414141414 0041221408 0201510906
324979413E 7E1111117E 7F49494936 3E41414122 7F4141221C 7F49494941 7F09090101 3E41415132
7F0808087F 00417F4100 2040413F01 7F08142241 7F40404040 7F0204027F 7F0408107F 3E4141413E
7F09090906 3E4151215E 7F09192946 4649494931 01017F0101 3F4040403F 1F2040201F 7F2018207F
6314081463 0304780403 6151494543 007F414100 0204081020 0041417F00 0402010204 4040404040
0001020400 2054545478 7F48444438 3844444420 384444487F 3854545418 087E090102 081454543C
7F08040478 00447D4000 2040443D00 7F10284400 00417F4000 7C04180478 7C08040478 3844444438
7C14141408 081414187C 7C08040408 4854545420 043F444020 3C4040207C 1C2040201C 3C4030403C
4428102844 0C5050503C 4464544C44 0008364100 00007F0000 0041360800 0804081008 7F4141417F
7F41414141 414141417F`.split(/\\s+/);

// Where a face has its picture: five columns, of whose bits the first is that of the pixel lines 0 and 1, or bars.
/** @type {Map<number, number[]>} */
const columns = new Map();
GLYPHS.forEach((word, k) => columns.set(0x20 + k, bytesOf(word).map((column) => 2 * column)));
let next = 0;
for (const word of COLUMNS.split(/\\s+/)) {
  if (word.length === 4) next = parseInt(word, 16);
  else columns.set(next++, bytesOf(word));
}
const bars = BARS.split(/\\s+/);

function bytesOf(word) {
  return word.match(/../g).map((hex) => parseInt(hex, 16));
}

/** All faces. @returns {number[]} */
export const allFaces = () => [...columns.keys(), ...bars.map((_, k) => 0x2500 + k)];

/** The sixteen pixel lines of a face, of eight bits each, the leftmost pixel in bit 0. @returns {number[]} */
export function linesOf(face) {
  return hasBars(face) ? linesOfBars(bars[face - 0x2500]) : linesOfColumns(columns.get(face));
}

function linesOfColumns(five) {
  const lines = Array(CELL_HEIGHT).fill(0);
  for (let y = 0; y < CELL_HEIGHT; y++) for (let x = 0; x < 5; x++) lines[y] |= ((five[x] >> (y >> 1)) & 1) << (x + 1);
  return lines;
}

// (in a word the width and the height of a bar are less by 1)
const barsOfWord = (word) => word.match(/..../g).map((bar) => [...bar].map((hex, k) => parseInt(hex, 16) + (k >> 1)));

/** The bars of a face that has some: their left and upper pixel, width and height. @returns {number[][]} */
export const barsOf = (face) => barsOfWord(bars[face - 0x2500]);

function linesOfBars(word) {
  const lines = Array(CELL_HEIGHT).fill(0);
  for (const [x, y, width, height] of barsOfWord(word)) {
    for (let line = y; line < y + height; line++) lines[line] |= ((1 << width) - 1) << x;
  }
  return lines;
}

// The lines as a text, of one character for two. Of two pictures that are alike, of a face and an underlined one that has
// the last line already, the one that isn't underlined is told.
const textOf = (it) => String.fromCharCode(it[0] | it[1] << 8, it[2] | it[3] << 8, it[4] | it[5] << 8, it[6] | it[7] << 8, it[8] | it[9] << 8, it[10] | it[11] << 8, it[12] | it[13] << 8, it[14] | it[15] << 8);
/** @type {Map<string, { face: number, isUnderlined: boolean }>} */
const PICTURES = new Map();
for (const face of allFaces()) {
  const lines = linesOf(face);
  PICTURES.set(textOf(lines), { face, isUnderlined: false });
  if (lines[15] !== 0xff) PICTURES.set(textOf([...lines.slice(0, 15), 0xff]), { face, isUnderlined: true });
}

const BLACK = pixelOf([0, 0, 0]);
const LINES = new Uint8Array(CELL_HEIGHT);

// The colour of a cell that isn't that of its first pixel, or that where all have it; LINES then tells which pixels have
// the other. It is 0 where there are more colours.
function otherAt(pixels, at, width) {
  const first = pixels[at];
  let other = first;
  for (let y = 0; y < CELL_HEIGHT; y++, at += width) {
    let line = 0;
    for (let x = 0; x < CELL_WIDTH; x++) {
      const pixel = pixels[at + x];
      if (pixel === first) continue;
      if (other === first) other = pixel;
      else if (pixel !== other) return 0;
      line |= 1 << x;
    }
    LINES[y] = line;
  }
  return other;
}

function exchange() {
  for (let y = 0; y < CELL_HEIGHT; y++) LINES[y] ^= 0xff;
  return LINES;
}

/**
 * What the cell shows whose first pixel has this place in the pixels of a layer of this width: its face, its ink and
 * paper as pixels, and whether it is underlined; or null where it shows none of the font's pictures. A cell of one colour
 * is a blank, whose ink is the paper, for nothing of it is seen. Where two faces are each other's picture in exchanged
 * colours, as the upper and the lower half, the one on black is told, or else the one on the first pixel's colour.
 * @returns {{ face: number, ink: number, paper: number, isUnderlined: boolean } | null}
 */
export function seenAt(pixels, at, width) {
  const [first, other] = [pixels[at], otherAt(pixels, at, width)];
  if (first === 0 || other === 0) return null;
  if (other === first) return { face: 0x20, ink: first, paper: first, isUnderlined: false };
  const onFirst = PICTURES.get(textOf(LINES));
  const seen = (picture, ink, paper) => picture && { face: picture.face, ink, paper, isUnderlined: picture.isUnderlined };
  if (onFirst !== undefined && other !== BLACK) return seen(onFirst, other, first);
  return seen(PICTURES.get(textOf(exchange())), first, other) ?? seen(onFirst, other, first) ?? null;
}
"
}

// `/index.html`.
fn index_html() -> &'static str {
    "\
<!doctype html>
<html lang=\"en\">
<head>
<meta charset=\"utf-8\">
<meta name=\"viewport\" content=\"width=device-width, initial-scale=1, interactive-widget=resizes-content\">
<meta name=\"color-scheme\" content=\"dark light\">
<title>guacgate</title>
<link rel=\"icon\" href=\"data:,\">
<link rel=\"stylesheet\" href=\"style.css\">
<script type=\"module\" src=\"main.js\"></script>
</head>
<body data-state=\"idle\">
<main>
  <div id=\"forms\" hidden>
    <form id=\"open\" aria-labelledby=\"open-title\">
      <h1 id=\"open-title\">Open a terminal</h1>
      <label>Telnet host <input name=\"hostname\" autocomplete=\"off\" autocapitalize=\"off\" spellcheck=\"false\" value=\"localhost\"></label>
      <div class=\"row\">
        <label>Port <input name=\"port\" inputmode=\"numeric\" value=\"23\"></label>
        <label>Columns <input name=\"columns\" inputmode=\"numeric\" placeholder=\"auto\"></label>
        <label>Rows <input name=\"rows\" inputmode=\"numeric\" placeholder=\"auto\"></label>
      </div>
      <p>Left empty, columns and rows follow the window.</p>
      <details>
        <summary>More</summary>
        <label>Terminal type, as the host is told <input name=\"terminal-type\" autocomplete=\"off\" autocapitalize=\"off\" spellcheck=\"false\" list=\"types\" value=\"linux\"></label>
        <datalist id=\"types\"><option>linux</option><option>guacgate</option><option>screen</option><option>xterm-r5</option></datalist>
      </details>
      <button>Open</button>
      <p>For you alone, and for whom you give a link that you make with “Share”.</p>
    </form>
    <form id=\"join\" aria-labelledby=\"join-title\">
      <h1 id=\"join-title\">Join others</h1>
      <label>Link or ID of the session <input name=\"session\" autocomplete=\"off\" autocapitalize=\"off\" spellcheck=\"false\" placeholder=\"$01234567-89ab-…\"></label>
      <label class=\"check\"><input name=\"read-only\" type=\"checkbox\"> only look on</label>
      <label class=\"check\"><input name=\"keep-size\" type=\"checkbox\"> keep its size</label>
      <button>Join</button>
      <p>Whoever opened the session gives you a link or its ID.</p>
    </form>
  </div>
  <div id=\"screen\" hidden>
    <div id=\"sheet\">
      <section id=\"scrollback\" aria-label=\"lines above the screen\"></section>
      <div id=\"stage\">
        <div id=\"terminal\">
          <canvas id=\"picture\" width=\"640\" height=\"384\" aria-hidden=\"true\"></canvas>
          <canvas id=\"sharp\" width=\"640\" height=\"384\" aria-hidden=\"true\"></canvas>
          <section id=\"text\" aria-label=\"screen\"></section>
          <!-- takes what is typed and composed while the terminal has the focus -->
          <textarea id=\"keys\" autocapitalize=\"off\" autocomplete=\"off\" autocorrect=\"off\" spellcheck=\"false\" aria-label=\"terminal keys\" aria-describedby=\"leaving\"></textarea>
        </div>
      </div>
    </div>
  </div>
</main>
<div id=\"touch\" role=\"toolbar\" aria-label=\"keys\">
  <button type=\"button\" data-key=\"Escape\">Esc</button>
  <button type=\"button\" data-key=\"Tab\">Tab</button>
  <button type=\"button\" data-key=\"Control\" aria-pressed=\"false\">Ctrl</button>
  <button type=\"button\" data-key=\"Alt\" aria-pressed=\"false\">Alt</button>
  <button type=\"button\" data-key=\"ArrowLeft\" aria-label=\"left\">←</button>
  <button type=\"button\" data-key=\"ArrowUp\" aria-label=\"up\">↑</button>
  <button type=\"button\" data-key=\"ArrowDown\" aria-label=\"down\">↓</button>
  <button type=\"button\" data-key=\"ArrowRight\" aria-label=\"right\">→</button>
  <button type=\"button\" data-key=\"Paste\">Paste</button>
</div>
<dialog id=\"asking\" aria-labelledby=\"asking-title\" aria-describedby=\"asking-text\">
  <form method=\"dialog\">
    <h1 id=\"asking-title\">Paste?</h1>
    <pre id=\"asking-text\"></pre>
    <label class=\"check\"><input name=\"never\" type=\"checkbox\"> don’t ask again</label>
    <div class=\"buttons\"><button value=\"paste\" autofocus>Paste</button> <button value=\"\" formnovalidate>Cancel</button></div>
  </form>
</dialog>
<footer>
  <span id=\"message\" role=\"status\"></span>
  <span id=\"notice\" role=\"status\"></span>
  <span id=\"rights\" role=\"status\"></span>
  <span id=\"hint\">Click the terminal, or press Shift-Tab, to type.</span>
  <details id=\"share\" class=\"fold\" hidden>
    <summary>Share</summary>
    <div class=\"panel\" tabindex=\"-1\">
      <form>
        <label>Who joins <select name=\"role\"><option value=\"view\">looks on</option><option value=\"control\">types too</option></select></label>
        <label>How often <input name=\"uses\" inputmode=\"numeric\" autocomplete=\"off\" value=\"1000\"></label>
        <button>Make a link</button>
      </form>
      <p role=\"status\"></p>
      <ul></ul>
      <p>Each who joins by a link uses it once, and so does each who comes back. A link that you revoke lets nobody else in; who is here stays.</p>
    </div>
  </details>
  <details id=\"panel\" class=\"fold\">
    <summary>View</summary>
    <!-- not a stop of its own where it scrolls, since all in it is reached -->
    <div class=\"panel\" tabindex=\"-1\">
      <form id=\"choices\">
        <label>Text
          <select name=\"text\"><option value=\"sharp\">sharp</option><option value=\"exact\">exact pixels</option></select>
        </label>
        <label>Size <select name=\"size\"></select></label>
        <label class=\"check\"><input id=\"keep\" type=\"checkbox\"> keep this size, whatever the window’s</label>
        <label>Lines kept above the screen <select name=\"lines\"></select></label>
        <label class=\"check\"><input name=\"speaks\" type=\"checkbox\"> say new lines to a screen reader</label>
        <label class=\"check\"><input name=\"asks\" type=\"checkbox\"> ask before several lines are pasted</label>
        <button type=\"button\" id=\"save\">Save all lines as text</button>
      </form>
      <dl>
        <dt>Control-F6, Control-Shift-Esc</dt><dd>leaves the terminal</dd>
        <dt>Shift-Page Up, Shift-Home</dt><dd>goes back through the lines above</dd>
        <dt>Control-Shift-C, or Control-C where text is selected</dt><dd>copies</dd>
        <dt>Control-Shift-V, Shift-Insert</dt><dd>pastes</dd>
        <dt>Control-click, on a Mac Command-click</dt><dd>opens the address there</dd>
        <dt>Control-Shift-L</dt><dd>says new lines, or no longer</dd>
      </dl>
      <p>Only lines that were on the screen are kept above it, so what a host sends faster than that is missing there.</p>
    </div>
  </details>
  <button id=\"again\" hidden></button>
</footer>
<p id=\"leaving\" class=\"unseen\">Control-F6 leaves the terminal, and so does Control-Shift-Escape.</p>
<div id=\"news\" class=\"unseen\" role=\"log\" aria-live=\"polite\" aria-label=\"new lines\"></div>
</body>
</html>
"
}

// `/instructions.js`.
fn instructions_js() -> &'static str {
    "\
// The instructions of the Guacamole protocol as text: elements of a length, a `.` and a value, with `,` between
// them and `;` at the end. A length counts Unicode characters, and a string of JavaScript has two units for some.

/** What can't be read as instructions. */
export class Unreadable extends Error {}

// Where the value of so many characters that begins at `start` ends.
function endOf(text, start, characters) {
  const end = start + characters;
  // Only a value with surrogates is longer than its characters.
  if (!/[\\ud800-\\udfff]/.test(text.slice(start, end))) return end;
  let at = start;
  for (let n = 0; n < characters && at < text.length; n++) at += text.codePointAt(at) > 0xffff ? 2 : 1;
  return at;
}

/** The instructions of a text from a place on, each with the place behind it. One that isn't finished is left out. */
export function* instructionsFrom(text, start) {
  let at = start;
  while (at < text.length) {
    const instruction = [];
    for (let separator = ','; separator === ',';) {
      const dot = text.indexOf('.', at);
      const length = text.slice(at, dot < 0 ? text.length : dot);
      if (dot < 0 && /^[0-9]{0,5}$/.test(length)) return;
      if (!/^[0-9]{1,5}$/.test(length)) throw new Unreadable(`no length at ${at}`);
      const end = endOf(text, dot + 1, Number(length));
      if (end >= text.length) return;
      instruction.push(text.slice(dot + 1, end));
      separator = text[end];
      if (separator !== ',' && separator !== ';') throw new Unreadable(`no end at ${end}`);
      at = end + 1;
    }
    yield { instruction, end: at };
  }
}

/** Reads instructions of a text that comes in pieces. */
export class Reader {
  #rest = '';

  /** The instructions, each a list of its elements, that are finished by a piece. */
  read(piece) {
    const text = this.#rest + piece;
    const found = [...instructionsFrom(text, 0)];
    this.#rest = text.slice(found.at(-1)?.end ?? 0);
    return found.map(({ instruction }) => instruction);
  }

  /** Whether no instruction is left unfinished. */
  get isWhole() {
    return this.#rest === '';
  }
}

/** The text of an instruction. */
export function textOf(...elements) {
  return elements.map((element) => `${[...String(element)].length}.${element}`).join(',') + ';';
}
"
}

// `/keyboard.js`.
fn keyboard_js() -> &'static str {
    "\
// What a person types: keys that go down and up, text that an input method or a dead key makes, and what is pasted.

import { ALT, CONTROL, isModifier, keysymNamed, keysymsOf, meaningOfKey } from './keysyms.js';

// It stands in the field, so that a keyboard on a screen has something to delete, and tells Backspace.
const SENTINEL = '\\u200b';

/** Hears the keys of an element that takes text, and tells each press and release as `send(keysym, isPressed)`. */
export class Keyboard {
  #field;
  #send;
  #act;
  #isMac;
  #isSelected;
  #paste;
  #isPasting = false;
  // By where the key is: the keysym that it was pressed with, so that the release names the same.
  #down = new Map();
  // The modifiers that are held for the next key alone, by buttons.
  #held = new Set();

  /**
   * @param {HTMLTextAreaElement} field
   * @param {(keysym: number, isPressed: boolean) => void} send
   * @param {(action: import('./keysyms.js').Action) => void} act does what the page itself does at a key
   * @param {{ isMac: boolean, isSelected: () => boolean, paste: (text: string) => void }} surroundings  whether Option
   *   makes characters, whether text is selected, and what takes a text that is pasted
   */
  constructor(field, send, act, { isMac, isSelected, paste }) {
    this.#field = field;
    this.#send = send;
    this.#act = act;
    this.#isMac = isMac;
    this.#isSelected = isSelected;
    this.#paste = paste;
    field.addEventListener('keydown', (event) => this.press(event));
    field.addEventListener('keyup', (event) => this.#release(event.code));
    field.addEventListener('compositionstart', () => field.classList.add('composing'));
    field.addEventListener('compositionupdate', (event) => { field.style.setProperty('--length', String(event.data.length + 1)); });
    field.addEventListener('compositionend', () => this.#takeField());
    field.addEventListener('input', (event) => { if (!(/** @type {InputEvent} */ (event).isComposing)) this.#takeField(); });
    // What is pasted falls into the field, too. It may have come by Control, which is let go first.
    field.addEventListener('paste', () => {
      this.letGo();
      this.#isPasting = true;
    });
    // The browser tells no release of a key that is let go elsewhere.
    field.addEventListener('blur', () => this.letGo());
    this.#empty();
  }

  /** Takes a key that goes down, unless it is the browser's. @param {KeyboardEvent} event */
  press(event) {
    // An input method takes these, and gives its text when it is done.
    if (event.isComposing || event.keyCode === 229) return;
    const meaning = isControlC(event) && this.#isSelected() ? { action: /** @type {const} */ ('take') } : meaningOfKey(event, this.#isMac);
    if (meaning === 'browser') return;
    event.preventDefault();
    if (meaning === 'nothing') return;
    if ('action' in meaning) return this.#act(meaning.action);
    if (meaning.isBare) this.letGo();
    else this.#holdAsIn(event, meaning);
    this.#beginHeld(meaning.keysym);
    this.#down.set(event.code, meaning.keysym);
    this.#send(meaning.keysym, true);
    this.#endHeld(meaning.keysym);
  }

  /** Presses a key and lets it go. */
  tap(keysym) {
    this.#beginHeld(keysym);
    this.#send(keysym, true);
    this.#send(keysym, false);
    this.#endHeld(keysym);
  }

  /** Types a text, key by key. */
  type(text) {
    keysymsOf(text).forEach((keysym) => this.tap(keysym));
  }

  /** Holds Control or Alt for the next key, or no longer, and answers whether it is held. */
  hold(keysym) {
    if (this.#held.delete(keysym)) return false;
    this.#held.add(keysym);
    return true;
  }

  // Control and Alt may have gone down elsewhere.
  /** @param {KeyboardEvent} event @param {{ keysym: number, withAlt?: boolean }} meaning */
  #holdAsIn({ ctrlKey, altKey }, { keysym, withAlt }) {
    if (isModifier(keysym)) return;
    const down = [...this.#down.values()];
    if (ctrlKey && !down.some((it) => it === CONTROL || it === CONTROL + 1)) this.#held.add(CONTROL);
    if (withAlt || (altKey && !this.#isMac && !down.some((it) => it === ALT || it === ALT + 1))) this.#held.add(ALT);
  }

  #beginHeld(keysym) {
    if (!isModifier(keysym)) this.#held.forEach((it) => this.#send(it, true));
  }

  #endHeld(keysym) {
    if (isModifier(keysym) || this.#held.size === 0) return;
    this.#held.forEach((it) => this.#send(it, false));
    this.#held.clear();
    this.#field.dispatchEvent(new Event('free'));
  }

  #release(code) {
    const keysym = this.#down.get(code);
    if (keysym === undefined) return;
    this.#down.delete(code);
    this.#send(keysym, false);
  }

  /** Releases all keys that are down. */
  letGo() {
    [...this.#down.keys()].forEach((code) => this.#release(code));
  }

  // What stands in the field was made by an input method, a dead key or a keyboard on a screen.
  #takeField() {
    const { value } = this.#field;
    this.#empty();
    const text = value.replaceAll(SENTINEL, '');
    const isPasted = this.#isPasting;
    this.#isPasting = false;
    if (isPasted) this.#paste(text);
    // With Control held by a button, a letter is meant.
    else if (text !== '') this.type(this.#held.has(CONTROL) ? text.toLowerCase() : text);
    else if (value === '') this.tap(keysymNamed('Backspace'));
  }

  #empty() {
    this.#field.classList.remove('composing');
    this.#field.value = SENTINEL;
    this.#field.setSelectionRange(1, 1);
  }
}

/** Whether the browser pastes at a key. */
export const isPaste = ({ key, ctrlKey, metaKey, shiftKey }) => (key === 'Insert' ? shiftKey : key.toLowerCase() === 'v' && (metaKey || (ctrlKey && shiftKey)));

const isControlC = ({ key, ctrlKey, altKey, shiftKey, metaKey }) => key === 'c' && ctrlKey && !altKey && !shiftKey && !metaKey;
"
}

// `/keysyms.js`.
fn keysyms_js() -> &'static str {
    "\
// From keys of a browser to keysyms of the X Window System, as the gateway reads them (docs/PROTOCOL.md, \"Keys\").

const NAMED = {
  Backspace: 0xff08, Tab: 0xff09, Enter: 0xff0d, Escape: 0xff1b,
  Home: 0xff50, ArrowLeft: 0xff51, ArrowUp: 0xff52, ArrowRight: 0xff53, ArrowDown: 0xff54,
  PageUp: 0xff55, PageDown: 0xff56, End: 0xff57, Insert: 0xff63, Delete: 0xffff,
  F1: 0xffbe, F2: 0xffbf, F3: 0xffc0, F4: 0xffc1, F5: 0xffc2, F6: 0xffc3,
  F7: 0xffc4, F8: 0xffc5, F9: 0xffc6, F10: 0xffc7, F11: 0xffc8, F12: 0xffc9,
};

// By where the key is, since the left one and the right one are held each for itself. Shift changes nothing there.
const PLACES = { ControlLeft: 0xffe3, ControlRight: 0xffe4, AltLeft: 0xffe9, AltRight: 0xffea };

/** Control and Alt, which change what other keys send. */
export const { ControlLeft: CONTROL, AltLeft: ALT } = PLACES;

/** All of them. */
export const MODIFIERS = Object.values(PLACES);

/** Whether the keysym is Control or Alt. */
export const isModifier = (keysym) => MODIFIERS.includes(keysym);

/** The keysym of a key by its name, as Tab. */
export const keysymNamed = (name) => NAMED[name];

/** The keysym of a character, or null for a control character. */
export function keysymOf(character) {
  const code = character.codePointAt(0);
  if (code < 0x20 || (code >= 0x7f && code <= 0x9f)) return null;
  return code <= 0xff ? code : 0x01000000 + code;
}

/** The keysyms that type a text: a line break is Return, a tab is Tab, and other control characters are left out. */
export function keysymsOf(text) {
  return [...text.replace(/\\r\\n?/g, '\\n')].map(typed).filter((keysym) => keysym !== null);
}

function typed(character) {
  if (character === '\\n') return NAMED.Enter;
  if (character === '\\t') return NAMED.Tab;
  return keysymOf(character);
}

/**
 * What the page itself does at a key.
 * @typedef {'copy' | 'take' | 'leave' | 'hush' | 'lineUp' | 'lineDown' | 'pageUp' | 'pageDown' | 'toTop' | 'toEnd'} Action
 */

/**
 * What a key means: a keysym that is sent, with `isBare` where no modifier goes with it and `withAlt` where Alt is sent
 * around it; an action of the page; `browser` for what is left to the browser; `nothing` for what the gateway's table of
 * keys hasn't, and which would be taken for another key.
 * @typedef {{ keysym: number, isBare?: boolean, withAlt?: boolean } | { action: Action } | 'browser' | 'nothing'} Meaning
 */

const LEAVING = ['Escape', 'F6'];
const SCROLLING = { PageUp: 'pageUp', PageDown: 'pageDown', Home: 'toTop', End: 'toEnd' };
const SCROLLING_BOTH = { ArrowUp: 'lineUp', ArrowDown: 'lineDown' };
// Those whose bytes are the same with Control or Shift on every terminal.
const EVER = ['Backspace', 'Enter', 'Escape', 'Delete'];

/** @param {KeyboardEvent} event @param {boolean} isMac whether Option makes characters, as on a Mac @returns {Meaning} */
export function meaningOfKey(event, isMac) {
  const { key, code } = event;
  if (event.metaKey) return 'browser';
  if (key === 'Control' || (key === 'Alt' && !isMac)) return code in PLACES ? { keysym: PLACES[code] } : 'browser';
  if (key === 'AltGraph' || key === 'Dead' || key === 'Process' || key === 'Unidentified') return 'browser';
  if ([...key].length === 1) return character(event, isMac);
  return named(event, isMac);
}

/** @returns {Meaning} */
function character(event, isMac) {
  const { key, code, ctrlKey, altKey, shiftKey } = event;
  const keysym = keysymOf(key);
  if (keysym === null) return 'browser';
  // AltGr makes a character, and on some systems is told as Control and Alt too.
  if (event.getModifierState('AltGraph') || (isMac && altKey && !ctrlKey)) return { keysym, isBare: true };
  if (!ctrlKey) return { keysym };
  // The letter of the key, where the layout has another alphabet.
  const letter = key > '~' ? /^Key([A-Z])$/.exec(code)?.[1].toLowerCase() : key;
  if (shiftKey && /^[a-z]$/i.test(letter ?? '')) return withControlAndShift(letter.toLowerCase());
  return letter !== undefined && /^[@-_a-z ?]$/.test(letter) ? { keysym: keysymOf(letter) } : 'browser';
}

/** @returns {Meaning} */
function withControlAndShift(letter) {
  if (letter === 'c') return { action: 'copy' };
  return letter === 'l' ? { action: 'hush' } : 'browser';
}

/** @returns {Meaning} */
function named({ key, ctrlKey, altKey, shiftKey }, isMac) {
  const keysym = NAMED[key];
  if (keysym === undefined) return 'browser';
  if (LEAVING.includes(key) && ctrlKey && shiftKey !== (key === 'F6')) return { action: 'leave' };
  if (EVER.includes(key)) return isMac && altKey ? { keysym, withAlt: true } : { keysym };
  if (ctrlKey && shiftKey && key in SCROLLING_BOTH) return { action: SCROLLING_BOTH[key] };
  if (shiftKey && !ctrlKey && key in SCROLLING) return { action: SCROLLING[key] };
  if (ctrlKey || (shiftKey && /^(Insert|F[0-9]+)$/.test(key))) return 'browser';
  if (shiftKey) return 'nothing';
  return isMac && altKey ? { keysym, withAlt: true } : { keysym };
}
"
}

// `/layers.js`.
fn layers_js() -> &'static str {
    "\
// The drawing machine: layers of pixels that `size`, `rect`, `cfill` and `copy` draw on. It is exact and knows of
// no canvas, so it can be tried without a browser. A pixel is a 32-bit number, alpha, blue, green and red from the
// highest byte down, as the memory of a canvas has them; 0 is a clear pixel.

import { Unreadable } from './instructions.js';

const VISIBLE = 0;
const LEAST_LAYER = -1024;
const MOST_SIDE = 4096;
const SOURCE_OVER = 14;

/** A layer: its size, its pixels row by row, and its path. */
export class Layer {
  width = 0;
  height = 0;
  pixels = new Uint32Array(0);
  /** @type {{ x: number, y: number, width: number, height: number }[]} */
  path = [];
  isFilled = false;

  // The common part stays, and all other pixels are clear.
  resize(width, height) {
    const pixels = new Uint32Array(width * height);
    const columns = Math.min(width, this.width);
    for (let y = 0; y < Math.min(height, this.height); y++) {
      pixels.set(this.pixels.subarray(y * this.width, y * this.width + columns), y * width);
    }
    Object.assign(this, { width, height, pixels });
  }

  // A rectangle behind a fill begins a new path.
  add(x, y, width, height) {
    if (this.isFilled) this.path = [];
    this.isFilled = false;
    this.path.push({ x, y, width, height });
  }

  // Parts outside the layer are dropped.
  fill(pixel) {
    for (const { x, y, width, height } of this.path) {
      const right = Math.min(x + width, this.width);
      const bottom = Math.min(y + height, this.height);
      for (let row = y; row < bottom && x < right; row++) this.pixels.fill(pixel, row * this.width + x, row * this.width + right);
    }
    this.isFilled = true;
  }

  // The pixels of a rectangle, those outside the layer clear.
  taken(x, y, width, height) {
    const pixels = new Uint32Array(width * height);
    const right = Math.min(x + width, this.width);
    const bottom = Math.min(y + height, this.height);
    for (let row = y; row < bottom && x < right; row++) {
      pixels.set(this.pixels.subarray(row * this.width + x, row * this.width + right), (row - y) * width);
    }
    return pixels;
  }

  // Clear pixels leave what is there.
  put(pixels, x, y, width) {
    const columns = Math.min(width, this.width - x);
    const rows = Math.min(width ? pixels.length / width : 0, this.height - y);
    for (let row = 0; row < rows; row++) {
      const from = row * width;
      const to = (y + row) * this.width + x;
      const line = pixels.subarray(from, from + Math.max(columns, 0));
      if (line.includes(0)) line.forEach((pixel, column) => { if (pixel !== 0) this.pixels[to + column] = pixel; });
      else this.pixels.set(line, to);
    }
  }
}

const number = (text, most) => {
  const value = Number(text);
  if (!/^[0-9]{1,20}$/.test(text ?? '') || value > most) throw new Unreadable(`not a number: ${text}`);
  return value;
};

const PLACE = 2 ** 32 - 1;

/**
 * What is told of each change before it is made.
 * @typedef {object} Watcher
 * @property {(layer: Layer, width: number, height: number) => void} sized  it gets this size
 * @property {(layer: Layer) => void} filled  the path of the layer is
 * @property {(from: Layer, x: number, y: number, width: number, height: number, to: Layer, toX: number, toY: number) => void} copied
 */

/** All layers of a view. */
export class Layers {
  /** @type {Map<number, Layer>} */
  #layers = new Map();
  #watcher;

  /** @param {Watcher | null} watcher */
  constructor(watcher = null) {
    this.#watcher = watcher;
  }

  /** The visible layer's width, height and pixels. */
  get visible() {
    return this.#layer('0');
  }

  #layer(text) {
    if (!/^(0|-[1-9][0-9]{0,3})$/.test(text ?? '') || Number(text) < LEAST_LAYER) throw new Unreadable(`not a layer: ${text}`);
    const index = Number(text) || VISIBLE;
    let layer = this.#layers.get(index);
    if (layer === undefined) this.#layers.set(index, layer = new Layer());
    return layer;
  }

  #mask(text) {
    if (number(text, 255) !== SOURCE_OVER) throw new Unreadable(`a mask of ${text}`);
  }

  /** Draws an instruction, and answers whether it is one that draws. */
  draw([opcode, ...given]) {
    switch (opcode) {
      case 'size': {
        const [name, width, height] = given;
        const layer = this.#layer(name);
        const size = [number(width, MOST_SIDE), number(height, MOST_SIDE)];
        this.#watcher?.sized(layer, size[0], size[1]);
        layer.resize(size[0], size[1]);
        return true;
      }
      case 'rect': {
        const [layer, ...places] = given;
        const [x, y, width, height] = [0, 1, 2, 3].map((k) => number(places[k], PLACE));
        this.#layer(layer).add(x, y, width, height);
        return true;
      }
      case 'cfill': {
        const [mask, name, ...colour] = given;
        this.#mask(mask);
        const [red, green, blue, alpha] = [0, 1, 2, 3].map((k) => number(colour[k], 255));
        if (alpha !== 255) throw new Unreadable(`an alpha of ${alpha}`);
        const layer = this.#layer(name);
        this.#watcher?.filled(layer);
        layer.fill(((alpha << 24) | (blue << 16) | (green << 8) | red) >>> 0);
        return true;
      }
      case 'copy': {
        const [source, x, y, width, height, mask, destination, toX, toY] = given;
        this.#mask(mask);
        const [from, to] = [this.#layer(source), this.#layer(destination)];
        const [left, top, columns, rows] = [number(x, PLACE), number(y, PLACE), number(width, MOST_SIDE), number(height, MOST_SIDE)];
        const [toLeft, toTop] = [number(toX, PLACE), number(toY, PLACE)];
        this.#watcher?.copied(from, left, top, columns, rows, to, toLeft, toTop);
        // All pixels are read before one is written, so a layer can be copied over itself.
        to.put(from.taken(left, top, columns, rows), toLeft, toTop, columns);
        return true;
      }
      default:
        return false;
    }
  }
}
"
}

// `/main.js`.
fn main_js() -> &'static str {
    "\
// The page: opens a tunnel as its address or its form asks, shows what it gives, and sends what is typed.

import { Addresses } from './address.js';
import { choose, kept } from './choices.js';
import { Display } from './display.js';
import { Follow } from './follow.js';
import { Keyboard, isPaste } from './keyboard.js';
import { meaningOfKey } from './keysyms.js';
import { BACK, LOST, THROWN, rightsOf, wayOn, wordsOf, wordsOfLink } from './messages.js';
import { Paster } from './paste.js';
import { faultOf, formOf, joinBy, linkOf, remember, remembered, requestOf, sessionOf, sizeOf, titleOf } from './request.js';
import { linesIn, saveAs } from './save.js';
import { Mouse, copyAsLines, copySelected, selectedText } from './selection.js';
import { Links, Share } from './share.js';
import { Speech } from './speech.js';
import { buttonsOf } from './touch.js';
import { View } from './view.js';
import { addressesBeside, waysTo } from './ways.js';

/** @type {(id: string) => any} */
const at = (id) => document.getElementById(id);
const ADDRESSES = addressesBeside(location);
const makeTunnel = waysTo(ADDRESSES);
const IS_MAC = /^(Mac|iP)/.test(navigator.platform);
const FOLDS = ['share', 'panel'];
const FIELDS = ['hostname', 'port', 'columns', 'rows', 'terminal-type'];
// How long, in milliseconds, what happened is told, and what a page that leaves is given to be gone.
const NOTICED = 20000;
const LEAVING = 3000;

/** @type {View | null} */
let view = null;
let request = null;
const speech = new Speech(at('news'));
speech.isOn = kept().speaks;
const follow = new Follow((size) => view?.resize(size));
const display = new Display(at, kept(), speech, (size) => follow.fits(size));
const share = new Share(at('share'), new Links(ADDRESSES.links), () => request.keepsSize);
const choices = choose(at('choices'), kept(), (chosen) => {
  display.choices = chosen;
  speech.isOn = chosen.speaks;
});

// The state is on the page's body, for its style and for whoever tests it.
function tell(state, message = '') {
  document.body.dataset.state = state;
  at('message').textContent = message;
}

let noticed = 0;
function notice(words) {
  at('notice').textContent = words;
  clearTimeout(noticed);
  noticed = setTimeout(() => { at('notice').textContent = ''; }, NOTICED);
}

// What became of keys while the link was bad, until it is told that it is back.
let trouble = '';
function tellTrouble(words) {
  trouble = words;
  notice(words);
}

const told = {
  shown(stamp) {
    document.body.dataset.stamp = stamp;
    delete document.body.dataset.bare;
    follow.shows(display.size);
  },
  changed(state) {
    const before = document.body.dataset.state;
    if (state === before) return;
    tell(state, wordsOfLink(state, view?.types));
    at('rights').textContent = state === 'open' ? rightsOf(request, view?.session) : '';
    at('again').hidden = state !== 'lost';
    if (state === 'lost') keyboard.letGo();
    if (state !== 'open') return;
    if (before === 'opening') opened();
    else notice(`${BACK} ${trouble}`.trim());
    trouble = '';
  },
  answered(isAnswered) { at('rights').textContent = rightsOf(request, view?.session, isAnswered); },
  lost() {
    keyboard.letGo();
    tellTrouble(LOST);
  },
  thrown() {
    // Nothing more is kept until the link is back.
    at('message').textContent = wordsOfLink(document.body.dataset.state, false);
    tellTrouble(THROWN);
  },
};

// What is seen around the terminal while a request is under way.
function surround() {
  at('forms').hidden = true;
  at('again').hidden = true;
  at('screen').hidden = false;
  at('again').textContent = 'Try now';
  at('again').onclick = () => {
    view?.hurry();
    focusKeys();
  };
  at('rights').textContent = '';
  share.use('');
  document.body.toggleAttribute('data-types', !request.readOnly);
  at('keys').disabled = request.readOnly;
  at('keep').checked = request.keepsSize;
  at('keep').parentElement.hidden = request.readOnly;
  document.title = titleOf(request);
}

function letFollow(isOn) {
  follow.isOn = display.follows = isOn;
}

async function start(asked) {
  request = asked;
  surround();
  tell('opening', 'Opening …');
  notice('');
  display.clear();
  document.body.dataset.bare = '';
  const size = sizeOf(request, display.measured());
  follow.begin(request.id ? null : size);
  view = new View(makeTunnel, display, request.readOnly, told);
  const end = await view.run(formOf(request, size));
  // A page that is about to be another one needs no word of it.
  if (end.by === 'left') await new Promise((passed) => setTimeout(passed, LEAVING));
  view = null;
  letFollow(false);
  finish(end);
}

// The session is there. Links to it are made by who types and knows its ID.
function opened() {
  remember({ ...request, id: view.session });
  share.use(request.isLink || request.readOnly ? '' : view.session);
  letFollow(!request.readOnly && !request.keepsSize);
  focusKeys();
}

function finish(end) {
  const { word, isAgain, isReload } = wayOn(end, request);
  if (end.by !== 'left') remember(null);
  paster.forget();
  tell('ended', wordsOf(end, request, document.body.dataset.state !== 'opening'));
  at('rights').textContent = '';
  share.use('');
  at('again').textContent = word;
  at('again').onclick = () => {
    if (isReload) location.reload();
    else if (isAgain) start(request);
    else toStart();
  };
  at('again').hidden = false;
  at('again').focus();
}

const isInAddress = () => requestOf(location.hash)?.id === request?.id && Boolean(request?.id);

// A session that is over goes from the address, so that the same link can be given again.
function toStart() {
  if (request.id) history.replaceState(null, '', location.href.split('#')[0]);
  begin(request.id ? null : request);
}

// An address that names a session joins it. One that names a host fills the form, so that no link has a host dialed
// before a person has agreed.
function begin(asked) {
  if (asked?.id) return start(asked);
  for (const name of FIELDS) if (asked) at('open').elements[name].value = asked[name === 'terminal-type' ? 'type' : name];
  tell('idle');
  document.title = 'guacgate';
  at('screen').hidden = true;
  at('again').hidden = true;
  at('forms').hidden = false;
  at('open').elements.hostname.focus();
}

// A form judges its fields itself, in words.
function judge(form) {
  for (const field of form.elements) if (field.name) field.setCustomValidity(faultOf(field.name, field.value));
}

const act = {
  copy: () => copySelected(at('screen')),
  take() {
    copySelected(at('screen'));
    document.getSelection()?.removeAllRanges();
    focusKeys();
  },
  // To what stands next behind the terminal, so that one step leads back.
  leave: () => FOLDS.map((id) => at(id).querySelector('summary')).find((it) => it.getClientRects().length > 0)?.focus(),
  hush() {
    choices.change({ speaks: !speech.isOn });
    at('news').replaceChildren(speech.isOn ? 'New lines are said.' : 'New lines are no longer said.');
  },
  lineUp: () => display.scrollLines(-1),
  lineDown: () => display.scrollLines(1),
  pageUp: () => display.scroll(-1),
  pageDown: () => display.scroll(1),
  toTop: () => display.scroll(-Infinity),
  toEnd: () => display.toEnd(),
};

function send(keysym, isPressed) {
  if (!view?.types) return;
  if (isPressed) {
    display.toEnd();
    if (keysym < 0x7f) speech.typed(String.fromCharCode(keysym));
  }
  view.press(keysym, isPressed);
}

const paste = (text) => paster.paste(text);
const keyboard = new Keyboard(at('keys'), send, (action) => act[action](), { isMac: IS_MAC, isSelected: () => selectedText(at('screen')) !== '', paste });
const paster = new Paster(at('asking'), (text) => keyboard.type(text), notice, () => choices.now.asks, () => choices.change({ asks: false }));
at('asking').addEventListener('close', focusKeys);
buttonsOf(at('touch'), at('keys'), keyboard, paste);
copyAsLines(at('screen'));
new Mouse(at('screen'), focusKeys);
new Addresses(at('screen'), IS_MAC, () => display.size.columns);
at('save').addEventListener('click', () => saveAs(`${document.title} ${new Date().toISOString().slice(0, 16).replace(':', '.')}.txt`, linesIn(at('screen'))));

at('keys').addEventListener('focus', () => FOLDS.forEach((id) => { at(id).open = false; }));
for (const id of FOLDS) {
  at(id).addEventListener('keydown', (event) => {
    if (event.key !== 'Escape') return;
    at(id).open = false;
    at(id).querySelector('summary').focus();
  });
}

function focusKeys() {
  if (view?.types) at('keys').focus({ preventScroll: true });
}

// Where nothing has the focus, as while text is selected, keys are the terminal's too.
const isNowhere = () => view !== null && (document.activeElement === document.body || document.activeElement === at('screen'));

addEventListener('keydown', (event) => {
  if (!isNowhere() || ['Control', 'Shift', 'Alt', 'Meta'].includes(event.key)) return;
  const meaning = meaningOfKey(event, IS_MAC);
  if (isPaste(event)) focusKeys();
  if (typeof meaning === 'string' || ('keysym' in meaning && !view?.types)) return;
  const isKept = 'action' in meaning || selectedText(at('screen')) !== '' && event.ctrlKey && event.key === 'c';
  if (!isKept) {
    document.getSelection()?.removeAllRanges();
    focusKeys();
  }
  keyboard.press(event);
});
for (const id of ['open', 'join']) at(id).addEventListener('input', () => judge(at(id)));
at('open').addEventListener('submit', (event) => {
  event.preventDefault();
  start(sessionOf(new FormData(event.target)));
});
at('join').addEventListener('submit', (event) => {
  event.preventDefault();
  const given = new FormData(event.target);
  const asked = { readOnly: given.has('read-only'), keepsSize: given.has('keep-size') };
  location.href = joinBy(String(given.get('session')).trim(), asked, location.href);
});
// The choice stands in the address, as that to look on alone does, and in the links for others.
at('keep').addEventListener('change', () => {
  request.keepsSize = at('keep').checked;
  letFollow(view !== null && !request.keepsSize);
  if (view?.session) remember({ ...request, id: view.session });
  if (isInAddress()) history.replaceState(null, '', linkOf(request, location.href));
});
// What is wrong in a part of a form that is folded would be told nowhere.
at('open').addEventListener('invalid', (event) => event.target.closest('details')?.setAttribute('open', ''), true);
addEventListener('hashchange', () => {
  remember(null);
  location.reload();
});
addEventListener('pagehide', () => view?.leave());
// A page that the browser has kept has left its session.
addEventListener('pageshow', (event) => { if (event.persisted) location.reload(); });
// A reload alone leads back to a session that isn't in the address, so the browser asks before it is left. Any other is
// left now: Firefox may end a page before it sends what is sent at its end.
addEventListener('beforeunload', (event) => {
  if (view === null || document.body.dataset.state === 'opening') return;
  if (isInAddress()) view.leave();
  else event.preventDefault();
});
// What the tab has shown counts more than a host in the address, which was its way there.
const asked = requestOf(location.hash);
begin(asked?.id ? asked : remembered() ?? asked);
for (const id of ['open', 'join']) judge(at(id));
"
}

// `/messages.js`.
fn messages_js() -> &'static str {
    "\
// What a person is told, in plain words.

const BY_CODE = {
  512: 'The gateway has no memory left.',
  513: 'The gateway is too busy for another session.',
  516: 'There is no such session. It may be over.',
  517: 'The gateway couldn’t name the session. Try again.',
  519: 'The host can’t be reached.',
  523: 'The gateway has closed the session: it has lost the host, or was told to stop, or the session was too long.',
  768: 'The gateway can’t read this request.',
  771: 'This session lets nobody join.',
  797: 'Too many viewers are in this session.',
};

const BY_STATUS = {
  0: 'The connection to the gateway is lost.',
  401: 'You have to log in.',
  403: 'You may not do this.',
  502: 'The gateway doesn’t answer.',
  503: 'The gateway doesn’t answer.',
  504: 'The gateway took too long to answer.',
};

/** What a refusal means. */
export function meaningOf({ code, status }) {
  return BY_CODE[code] ?? BY_STATUS[status] ?? `The gateway answered with status ${status}.`;
}

const ABSENT = 516;

// What it means that nothing is there. Who opens a session is told so only where the web server lets a login join alone.
function absent({ id, isLink = false }, wasOpen) {
  if (isLink) return 'This link leads nowhere any more: it is used up, was taken back, or its session is over.';
  if (id) return BY_CODE[ABSENT];
  return wasOpen ? 'The gateway no longer knows this view. It may have been started anew.' : 'No session can be opened with this login. Join one by its link.';
}

/** What ended a view that was requested, `wasOpen` where it was shown that it opened. @param {import('./view.js').End} end */
export function wordsOf(end, request, wasOpen) {
  switch (end.by) {
    case 'host': return 'The host has ended the session.';
    case 'error': return meaningOf({ code: end.code, status: 0 });
    case 'refusal': return end.code === ABSENT ? absent(request, wasOpen) : meaningOf(end);
    case 'left': return 'You have left the session.';
    case 'unreachable': return 'The connection to the gateway was lost, and this session can’t be reached from here any more.';
    case 'unreadable': return 'The gateway sent something that this page can’t read.';
    default: return 'This page has a fault, and can’t go on.';
  }
}

// The codes of a session that is over or lets nobody in: to ask again is no use.
const FOR_GOOD = [516, 523, 768, 771];

/** What can be tried behind an end: whether the same may work again, and the word for it. @param {import('./view.js').End} end */
export function wayOn(end, request) {
  const isOver = end.by === 'host' || end.by === 'error' || (end.by === 'refusal' && FOR_GOOD.includes(end.code));
  if (end.by === 'refusal' && end.status === 401 && end.code === 0) return { word: 'Log in', isAgain: true, isReload: true };
  if (request.id) return isOver ? { word: 'To the start', isAgain: false } : { word: 'Join again', isAgain: true };
  return { word: 'Open another', isAgain: false };
}

/** How the connection is, `types` where keys are sent. */
export function wordsOfLink(state, types) {
  const kept = types ? ' Keys are kept for 10 seconds.' : '';
  if (state === 'lost') return `The connection is lost. This page comes back by itself.${kept}`;
  return state === 'unstable' ? `The gateway doesn’t answer.${kept}` : '';
}

/** What became of what was typed while the connection was bad. */
export const LOST = 'Some keys may be lost.';
export const THROWN = 'What you typed was thrown away.';
export const BACK = 'The connection is back.';

/** Why a link couldn't be made or taken back. @param {import('./tunnel.js').Refusal} refusal @param {'make' | 'revoke'} what */
export function wordsOfLinks(refusal, what) {
  if (refusal.status === 404) return refusal.code === 0 ? 'Links can’t be made at this address.' : 'The gateway makes no links to this session.';
  if (refusal.code === 517) return 'The gateway couldn’t name the link. Try again.';
  return `${meaningOf(refusal)} ${what === 'make' ? 'No link was made.' : 'The link was not taken back.'}`;
}

/** Who may type, `session` being the ID by which others can join. The gateway tells nobody whose keys count, so of who
 *  joins it is said what is done, and what came of it. */
export function rightsOf({ id, readOnly }, session, isAnswered = true) {
  if (readOnly) return 'You look on. Your keys are not sent.';
  if (!id) return session ? 'You may type.' : 'You may type. Nobody else may join.';
  return isAnswered ? 'Your keys are sent.' : 'Your keys are sent, and nothing answers. This session may let you look on alone.';
}
"
}

// `/outbox.js`.
fn outbox_js() -> &'static str {
    "\
// What a view sends, in its order. While there is no link, what is typed is kept for a while, and then thrown away: half
// of a line that comes late is worse than none.

import { textOf } from './instructions.js';
import { MODIFIERS } from './keysyms.js';

// The most instructions that are sent together: one less than a gateway takes, since a tunnel may put another one before.
const MOST_INSTRUCTIONS = 4095;
// How long, in milliseconds, keys are kept.
const KEPT = 10000;

const RELEASES = MODIFIERS.map((keysym) => ({ text: textOf('key', keysym, 0), isKey: true }));

/** Sends instructions by one tunnel after the other. */
export class Outbox {
  /** @type {{ text: string, isKey: boolean }[]} */
  #waiting = [];
  /** @type {import('./tunnel.js').Tunnel | null} */
  #tunnel = null;
  // How many texts are on their way.
  #count = 0;
  #told;
  #timer = 0;
  #isThrown = false;

  /** @param {{ lost(): void, thrown(): void }} told  keys may not have come to the host, or were thrown away */
  constructor(told) {
    this.#told = told;
  }

  /** Sends by this tunnel from now on. What isn't a key was for the one before. */
  use(tunnel) {
    this.#tunnel = tunnel;
    this.#waiting = this.#waiting.filter(({ isKey }) => isKey);
  }

  /** Adds an instruction. Once keys were thrown away no others are kept. */
  add(text, isKey = false) {
    if (isKey && this.#isThrown) return;
    this.#waiting.push({ text, isKey });
    this.turn();
  }

  /** Modifiers that were held before are released before anything else is sent. */
  release() {
    if (this.#waiting[0] !== RELEASES[0]) this.#waiting.unshift(...RELEASES);
  }

  /** The tunnel has another state. */
  turn() {
    if (this.#tunnel?.state === 'open') {
      clearTimeout(this.#timer);
      this.#timer = 0;
      this.#isThrown = false;
      this.#send();
    } else if (this.#timer === 0 && this.#waiting.some(({ isKey }) => isKey)) this.#timer = setTimeout(() => this.#throw(), KEPT);
  }

  #throw() {
    this.#isThrown = true;
    this.#waiting = this.#waiting.filter(({ isKey }) => !isKey);
    this.release();
    this.#told.thrown();
  }

  #send() {
    while (this.#tunnel?.state === 'open' && this.#count < this.#tunnel.most && this.#waiting.length > 0) this.#sendPart(this.#tunnel);
  }

  /** @param {import('./tunnel.js').Tunnel} tunnel */
  async #sendPart(tunnel) {
    const part = this.#waiting.splice(0, MOST_INSTRUCTIONS);
    this.#count += 1;
    await tunnel.send(part.map(({ text }) => text).join('')).catch((fault) => this.#failed(part, fault));
    this.#count -= 1;
    this.#send();
  }

  // What may have been done isn't sent again: a Return that comes twice does harm, and a key that is missing is seen.
  #failed(part, fault) {
    if (fault.isUndone) this.#waiting.unshift(...part);
    else if (part.some(({ isKey }) => isKey)) {
      this.release();
      this.#told.lost();
    }
  }
}
"
}

// `/palette.js`.
fn palette_js() -> &'static str {
    "\
// Colours: the sixteen of the gateway (docs/TERMINAL.md, \"Palette\") and others as they are seen, and what makes text
// legible on its paper.

const SIXTEEN = [0x000000, 0xaa0000, 0x00aa00, 0xaa5500, 0x0000aa, 0xaa00aa, 0x00aaaa, 0xaaaaaa, 0x555555, 0xff5555, 0x55ff55, 0xffff55, 0x5555ff, 0xff55ff, 0x55ffff, 0xffffff];

/** The least contrast of text on its paper, by the measure of WCAG 2.1 for text of any size. */
export const LEAST_CONTRAST = 4.5;

/** @typedef {[red: number, green: number, blue: number]} Colour */

/** A colour as a pixel of a canvas's memory. @param {Colour} colour */
export const pixelOf = ([red, green, blue]) => ((255 << 24) | (blue << 16) | (green << 8) | red) >>> 0;
/** @returns {Colour} */
const colourOf = (pixel) => [pixel & 255, (pixel >> 8) & 255, (pixel >> 16) & 255];

const colours = SIXTEEN.map((it) => /** @type {Colour} */ ([it >> 16, (it >> 8) & 255, it & 255]));
const indices = new Map(colours.map((colour, index) => [pixelOf(colour), index]));

/** The index of a pixel's colour. A new colour gets the next one; past 256 of them it is -1. */
export function indexOf(pixel) {
  const index = indices.get(pixel);
  if (index !== undefined) return index;
  if (colours.length === 256) return -1;
  indices.set(pixel, colours.length);
  return colours.push(colourOf(pixel)) - 1;
}

/** The colour of an index. @returns {Colour} */
export const paperColour = (index) => colours[index];

// The relative luminance of WCAG 2.1.
function luminance(colour) {
  const [red, green, blue] = colour.map((it) => (it <= 10 ? it / 255 / 12.92 : ((it / 255 + 0.055) / 1.055) ** 2.4));
  return 0.2126 * red + 0.7152 * green + 0.0722 * blue;
}

/** The contrast of two colours, 1 to 21. @param {Colour} one @param {Colour} other */
export function contrast(one, other) {
  const [less, more] = [luminance(one), luminance(other)].sort((a, b) => a - b);
  return (more + 0.05) / (less + 0.05);
}

const BLACK = /** @type {Colour} */ ([0, 0, 0]);
const WHITE = /** @type {Colour} */ ([255, 255, 255]);
const lifted = new Map();

/** The colour of an ink on a paper: its own, or as little lighter or darker as gives it the least contrast. @returns {Colour} */
export function inkColour(ink, paper) {
  const key = ink * 256 + paper;
  let colour = lifted.get(key);
  if (colour === undefined) lifted.set(key, colour = lift(colours[ink], colours[paper]));
  return colour;
}

function lift(ink, paper) {
  const end = contrast(WHITE, paper) >= LEAST_CONTRAST ? WHITE : BLACK;
  for (let part = 0; part < 64; part++) {
    const colour = /** @type {Colour} */ (ink.map((it, k) => Math.round(it + ((end[k] - it) * part) / 64)));
    if (contrast(colour, paper) >= LEAST_CONTRAST) return colour;
  }
  return end;
}

/** A colour as CSS has it. @param {Colour} colour */
export const cssOf = (colour) => `rgb(${colour.join(',')})`;
"
}

// `/paste.js`.
fn paste_js() -> &'static str {
    "\
// What is pasted. Several lines are asked about, since each may be a command that the host does at once.

/** The most bytes that are pasted, in UTF-8. */
export const MOST = 262144;
// How much of it is shown.
const SHOWN = 2000;

/** How many lines and bytes a text has. A line that is finished begins no other one. */
export function sizeOf(text) {
  const lines = text.split(/\\r\\n|\\r|\\n/);
  if (lines.at(-1) === '') lines.pop();
  return { lines: lines.length, bytes: new TextEncoder().encode(text).length };
}

/** Pastes texts into a terminal: `asking` is a dialog, `type` types, `tell` tells why one isn't pasted. */
export class Paster {
  #asking;
  #type;
  #tell;
  #isAsked;
  #stopAsking;
  #text = '';

  /**
   * @param {HTMLDialogElement} asking @param {(text: string) => void} type @param {(words: string) => void} tell
   * @param {() => boolean} isAsked  whether it is asked @param {() => void} stopAsking
   */
  constructor(asking, type, tell, isAsked, stopAsking) {
    this.#asking = asking;
    this.#type = type;
    this.#tell = tell;
    this.#isAsked = isAsked;
    this.#stopAsking = stopAsking;
    asking.addEventListener('close', () => this.#answer());
  }

  paste(text) {
    const { lines, bytes } = sizeOf(text);
    if (bytes > MOST) return this.#tell(`This is too long to paste: it has ${bytes.toLocaleString('en')} bytes, and at most ${MOST.toLocaleString('en')} are pasted. Nothing was sent.`);
    if (lines < 2 || !this.#isAsked()) return this.#type(text);
    const [title, sample] = this.#asking.querySelectorAll('h1, pre');
    title.textContent = `Paste ${lines.toLocaleString('en')} lines?`;
    sample.textContent = text.length > SHOWN ? `${text.slice(0, SHOWN)}…` : text;
    this.#text = text;
    this.#asking.returnValue = '';
    this.#asking.querySelector('input').checked = false;
    this.#asking.showModal();
  }

  // The session may be over by now.
  #answer() {
    const text = this.#text;
    this.#text = '';
    if (this.#asking.returnValue !== 'paste') return;
    if (this.#asking.querySelector('input').checked) this.#stopAsking();
    this.#type(text);
  }

  /** Takes a question back. */
  forget() {
    this.#asking.close();
  }
}
"
}

// `/play.css`.
fn play_css() -> &'static str {
    "\
/* The page of the player: the picture, the bar below it, and one line of text. */
#screen { cursor: default; }
#controls { display: flex; flex-wrap: wrap; gap: .4em 1em; align-items: center; padding: .4em .8em; background: var(--raised); border-top: 1px solid var(--edge); }
#bar { flex: 1; min-width: 12em; padding: 0; }
#controls label { display: flex; gap: .4em; align-items: center; }
#jump { flex-direction: row; gap: .5em; width: auto; padding: 0; background: none; border: 0; }
#jump input { width: 9em; }
#place { font-variant-numeric: tabular-nums; }
#again { margin-left: auto; }
body[data-state=\"ready\"] footer::before { background: var(--good); }
"
}

// `/play.html`.
fn play_html() -> &'static str {
    "\
<!doctype html>
<html lang=\"en\">
<head>
<meta charset=\"utf-8\">
<meta name=\"viewport\" content=\"width=device-width, initial-scale=1\">
<meta name=\"color-scheme\" content=\"dark light\">
<title>recording</title>
<link rel=\"icon\" href=\"data:,\">
<link rel=\"stylesheet\" href=\"style.css\">
<link rel=\"stylesheet\" href=\"play.css\">
<script type=\"module\" src=\"play.js\"></script>
</head>
<body data-state=\"idle\">
<main>
  <form id=\"open\">
    <h1>Play a recording</h1>
    <label>Files of a recording <input name=\"files\" type=\"file\" multiple></label>
    <p>The recording, and where there is one its file of moments, <code>.times</code>.</p>
    <label>or its address <input name=\"address\" autocomplete=\"off\" autocapitalize=\"off\" spellcheck=\"false\"></label>
    <label>and that of its moments <input name=\"moments\" autocomplete=\"off\" autocapitalize=\"off\" spellcheck=\"false\"></label>
    <button>Open</button>
    <p>Nothing is sent anywhere: the recording is played in this page.</p>
  </form>
  <div id=\"screen\" hidden>
    <div id=\"terminal\" role=\"img\" aria-label=\"terminal\">
      <canvas id=\"picture\" width=\"640\" height=\"384\"></canvas>
      <canvas id=\"sharp\" width=\"640\" height=\"384\"></canvas>
    </div>
  </div>
</main>
<div id=\"controls\" hidden>
  <button id=\"play\">Play</button>
  <input id=\"bar\" type=\"range\" min=\"0\" max=\"0\" step=\"1\" value=\"0\" aria-label=\"place in the recording\">
  <label>Speed <select id=\"speed\"><option>0.25</option><option>0.5</option><option selected>1</option><option>2</option><option>4</option><option>16</option><option>64</option></select></label>
  <form id=\"jump\"><label>Stamp <input name=\"stamp\" inputmode=\"numeric\" pattern=\"[0-9]{1,20}\" title=\"a number\" required></label> <button>Jump</button></form>
</div>
<footer>
  <span id=\"message\" role=\"status\"></span>
  <span id=\"place\"></span>
  <span id=\"measure\"></span>
  <button id=\"again\" hidden>Open another</button>
</footer>
</body>
</html>
"
}

// `/play.js`.
fn play_js() -> &'static str {
    "\
// The page that plays a recording: opens it by files or an address, and shows its syncs one after the other, at a
// speed, or the one that is asked for.

import { cellsOf } from './cells.js';
import { kept } from './choices.js';
import { CELL_HEIGHT, CELL_WIDTH } from './font.js';
import { Unreadable } from './instructions.js';
import { Player, momentsOf } from './player.js';
import { Sharp, advance, cellFor } from './sharp.js';

/** @param {string} id @returns {any} the element of the page */
const at = (id) => document.getElementById(id);

// What is left free around the picture, both sides together.
const FRAME = 20;

/** The terminal, which shows the visible layer of a player: as sharp text, or as its own pixels where those are chosen
 *  on the page of the terminal. */
class Screen {
  #picture;
  #context;
  #sharp;
  #isExact = kept().text === 'exact';
  #cells = new Int32Array(0);

  constructor(picture, sharp) {
    this.#picture = picture;
    this.#context = picture.getContext('2d', { alpha: false, willReadFrequently: true });
    this.#sharp = new Sharp(sharp);
    at('screen').dataset.text = this.#isExact ? 'exact' : 'sharp';
    new ResizeObserver(() => this.#fit()).observe(at('screen'));
  }

  clear() {
    this.#context.clearRect(0, 0, this.#picture.width, this.#picture.height);
    this.#sharp.clear();
  }

  show({ width, height, pixels }) {
    if (width === 0 || height === 0) return;
    const isOther = this.#picture.width !== width || this.#picture.height !== height || this.#cells.length === 0;
    if (isOther) Object.assign(this.#picture, { width, height });
    this.#context.putImageData(new ImageData(new Uint8ClampedArray(pixels.buffer), width, height), 0, 0);
    this.#cells = cellsOf(pixels, width, height);
    if (isOther) this.#fit();
    else if (!this.#isExact) this.#sharp.show(this.#cells, this.#pictureAt);
  }

  #pictureAt = (x, y) => new Uint32Array(this.#context.getImageData(x * CELL_WIDTH, y * CELL_HEIGHT, CELL_WIDTH, CELL_HEIGHT).data.buffer);

  // As large as the window has room for. Of its own pixels each is as large as a whole number of the device's.
  #fit() {
    const { clientWidth, clientHeight } = at('screen');
    if (clientWidth === 0 || this.#cells.length === 0) return;
    const [columns, rows] = [Math.floor(this.#picture.width / CELL_WIDTH), Math.floor(this.#picture.height / CELL_HEIGHT)];
    const room = { width: (clientWidth - FRAME) * devicePixelRatio, height: (clientHeight - FRAME) * devicePixelRatio };
    const factor = Math.max(1, Math.floor(Math.min(room.width / this.#picture.width, room.height / this.#picture.height)));
    const cell = this.#isExact ? { width: CELL_WIDTH * factor, height: CELL_HEIGHT * factor } : cellFor({ columns, rows, room, wanted: 0, ratio: advance() });
    Object.assign(at('terminal').style, { width: `${columns * cell.width / devicePixelRatio}px`, height: `${rows * cell.height / devicePixelRatio}px` });
    if (this.#isExact) return;
    this.#sharp.fit(columns, rows, cell);
    this.#sharp.show(this.#cells, this.#pictureAt);
  }
}

const screen = new Screen(at('picture'), at('sharp'));
let player = null;
// While it plays: the moment of the recording and that of the clock from which it goes on.
let clock = null;

// The state is on the page's body, for its style and for whoever tests it.
function tell(state, message = '') {
  document.body.dataset.state = state;
  at('message').textContent = message;
}

// What a person reads of a moment.
function wordsFor(moment) {
  if (!player.hasMoments) return `stamp ${moment}`;
  const seconds = Math.floor(moment / 1000);
  const two = (number) => String(number).padStart(2, '0');
  return `${Math.floor(seconds / 3600)}:${two(Math.floor(seconds / 60) % 60)}:${two(seconds % 60)}.${String(moment % 1000).padStart(3, '0')}`;
}

function show(k) {
  player.seek(k);
  screen.show(player.visible);
  document.body.dataset.stamp = player.syncs[k].stamp;
  document.body.dataset.sync = k;
  tellPlace();
}

function tellPlace() {
  at('place').textContent = `${wordsFor(player.syncs[player.at].moment)}, picture ${player.at + 1} of ${player.syncs.length}`;
}

// Shows the sync of this number, one of several perhaps that have its moment.
function showOnly(k) {
  stop();
  show(k);
  at('bar').value = player.syncs[k].moment;
}

const step = (by) => showOnly(Math.min(Math.max(player.at + by, 0), player.syncs.length - 1));

// The sync at a moment, or the first one where that is later.
const syncAt = (moment) => Math.max(0, player.find(moment));

// Shows what a moment has, and goes on from there where it plays.
function goTo(moment) {
  if (player.syncs.length === 0) return;
  const k = syncAt(moment);
  if (k !== player.at) show(k);
  at('bar').value = moment;
  if (clock) clock = { moment, since: performance.now() };
}

function stop() {
  clock = null;
  at('play').textContent = 'Play';
  document.body.removeAttribute('data-playing');
}

function play() {
  const [first, last] = [player.syncs[0].moment, player.syncs.at(-1).moment];
  const moment = Number(at('bar').value) >= last ? first : Number(at('bar').value);
  goTo(moment);
  clock = { moment, since: performance.now() };
  at('play').textContent = 'Pause';
  document.body.dataset.playing = '';
  requestAnimationFrame(tick);
}

// Each paint of the browser shows the sync of its moment; those between are played and not shown.
function tick(now) {
  if (!clock) return;
  const moment = clock.moment + Math.max(0, now - clock.since) * Number(at('speed').value);
  const last = player.syncs.at(-1).moment;
  const k = syncAt(Math.min(moment, last));
  if (k !== player.at) show(k);
  at('bar').value = Math.min(moment, last);
  if (moment >= last) stop();
  else requestAnimationFrame(tick);
}

// How far the recording was read, as a person reads it; the bar reaches as far.
function tellRead() {
  const { syncs, read, length } = player;
  if (syncs.length === 0) return;
  if (player.at < 0) show(0);
  tellPlace();
  Object.assign(at('bar'), { min: syncs[0].moment, max: syncs.at(-1).moment });
  at('controls').hidden = false;
  if (read < length) at('message').textContent = `Reading: ${Math.floor(100 * read / length)} %`;
}

async function start(bytes, moments) {
  at('open').hidden = true;
  at('screen').hidden = false;
  at('again').hidden = false;
  stop();
  screen.clear();
  tell('reading', 'Reading …');
  player = new Player(bytes, moments);
  at('measure').textContent = player.hasMoments ? 'The bar is by the moments at which it was recorded.' : 'The bar is by stamps: the recording has no moments.';
  const own = player;
  await own.index(() => { if (own === player) tellRead(); });
  if (own !== player) return;
  goTo(Number(at('bar').value));
  if (player.syncs.length === 0) tell('ended', 'There is no picture in it.');
  else if (player.fault) tell('ready', 'From some place on it can’t be read; what stands before that is played.');
  else tell('ready');
}

async function bytesAt(address) {
  const response = await fetch(address);
  if (!response.ok) throw new Error(`${address}: ${response.status}`);
  return new Uint8Array(await response.arrayBuffer());
}

const textIn = (bytes) => new TextDecoder().decode(bytes);

// Of files the one whose name ends so has the moments, and another one is the recording.
async function openFiles(files) {
  const times = files.find(({ name }) => name.endsWith('.times'));
  const recording = files.find((file) => file !== times);
  if (!recording) throw new Error('a file of moments alone is no recording');
  await start(new Uint8Array(await recording.arrayBuffer()), times ? momentsOf(await times.text()) : null);
}

async function openAddress(address, moments) {
  await start(await bytesAt(address), moments ? momentsOf(textIn(await bytesAt(moments))) : null);
}

// Whatever can't be opened is told, and another one can be.
async function opening(opened) {
  try {
    await opened;
  } catch (fault) {
    at('again').hidden = false;
    tell('ended', fault instanceof Unreadable ? 'This can’t be read as a recording.' : `It can’t be opened: ${fault.message}`);
  }
}

function begin() {
  player = null;
  stop();
  for (const id of ['screen', 'controls', 'again']) at(id).hidden = true;
  for (const id of ['place', 'measure']) at(id).textContent = '';
  at('open').hidden = false;
  tell('idle');
}

at('open').addEventListener('submit', (event) => {
  event.preventDefault();
  const given = new FormData(at('open'));
  const files = /** @type {File[]} */ (given.getAll('files')).filter(({ name }) => name !== '');
  if (files.length > 0) opening(openFiles(files));
  else if (given.get('address') !== '') {
    const asked = new URLSearchParams({ recording: String(given.get('address')) });
    if (given.get('moments')) asked.set('moments', String(given.get('moments')));
    location.hash = String(asked);
  }
});
const playOrStop = () => { if (clock) stop(); else play(); };
at('play').addEventListener('click', playOrStop);
// A step of the bar itself would be a millisecond.
const STEPS = { ArrowLeft: -1, ArrowDown: -1, ArrowRight: 1, ArrowUp: 1 };
at('bar').addEventListener('keydown', (event) => {
  if (!(event.key in STEPS)) return;
  event.preventDefault();
  step(STEPS[event.key]);
});
addEventListener('keydown', (event) => {
  if (event.key !== ' ' || at('controls').hidden || /** @type {Element} */ (event.target).matches('button, select, input:not([type=range])')) return;
  event.preventDefault();
  playOrStop();
});
at('bar').addEventListener('input', () => goTo(Number(at('bar').value)));
at('speed').addEventListener('change', () => { if (clock) clock = { moment: Number(at('bar').value), since: performance.now() }; });
at('jump').addEventListener('submit', (event) => {
  event.preventDefault();
  const stamp = Number(new FormData(at('jump')).get('stamp'));
  showOnly(Math.max(0, player.findStamp(stamp)));
});
at('again').addEventListener('click', () => { if (location.hash) location.hash = ''; else begin(); });
// The address names the recording, so that a link to this page plays it.
function follow() {
  const asked = new URLSearchParams(location.hash.slice(1));
  begin();
  if (asked.get('recording')) opening(openAddress(asked.get('recording'), asked.get('moments')));
}
addEventListener('hashchange', follow);
follow();
"
}

// `/player.js`.
fn player_js() -> &'static str {
    "\
// A player of recordings: the text of instructions is read once, from its beginning, and any of its syncs is shown
// from the picture that was kept before it. It knows of no canvas, so it can be tried without a browser.

import { Unreadable, instructionsFrom } from './instructions.js';
import { Layers } from './layers.js';

/** A picture is kept every so many characters of the recording, or sooner, where drawing took long. */
const KEPT_EVERY = 2 * 1024 * 1024;
/** How long drawing from a kept picture may take, in milliseconds, as long as few are kept. */
const KEPT_AFTER = 30;
const MOST_KEPT = 512;
/** How long a part of the reading takes, in milliseconds, before whoever shows it has a turn. */
const PART = 25;

// Pixels in a quarter of the room, where they have few colours, as those of a terminal do.
function packed(pixels) {
  const numbers = new Map();
  const places = new Uint8Array(pixels.length);
  let last = 0;
  let number = 0;
  for (let at = 0; at < pixels.length; at++) {
    if (pixels[at] !== last || at === 0) {
      last = pixels[at];
      number = numbers.get(last) ?? numbers.size;
      if (number === 256) return { pixels: pixels.slice() };
      numbers.set(last, number);
    }
    places[at] = number;
  }
  return { colours: Uint32Array.from(numbers.keys()), places };
}

// Puts packed pixels into others.
function unpack({ pixels, colours, places }, into) {
  if (pixels) into.set(pixels);
  else for (let at = 0; at < places.length; at++) into[at] = colours[places[at]];
}

/** A view whose picture can be kept: the layers, and what of each can't be read back from them. */
class View {
  #layers = new Layers();
  // Of each layer its size, its path and whether it was filled, by the layer's name.
  #shapes = new Map();

  get visible() {
    return this.#layers.visible;
  }

  #shape(name) {
    if (!this.#shapes.has(name)) this.#shapes.set(name, { width: 0, height: 0, path: [], isFilled: false });
    return this.#shapes.get(name);
  }

  draw(instruction) {
    if (!this.#layers.draw(instruction)) return;
    const [opcode, ...given] = instruction;
    if (opcode === 'size') Object.assign(this.#shape(given[0]), { width: Number(given[1]), height: Number(given[2]) });
    else if (opcode === 'rect') this.#add(this.#shape(given[0]), given.slice(1));
    else if (opcode === 'cfill') this.#shape(given[1]).isFilled = true;
  }

  #add(shape, rectangle) {
    if (shape.isFilled) shape.path = [];
    shape.isFilled = false;
    shape.path.push(rectangle);
  }

  /** A picture of all layers, from which `View.of` makes a view like this one. */
  picture() {
    const { width, height } = this.visible;
    const pixels = this.visible.pixels.slice();
    // The pixels of the other layers are read by way of the visible one.
    const layers = [...this.#shapes].map(([name, shape]) => {
      const kept = { ...shape, path: [...shape.path], name };
      if (name === '0') return { ...kept, packed: packed(pixels) };
      this.#clear(shape.width, shape.height);
      this.#layers.draw(['copy', name, 0, 0, shape.width, shape.height, 14, '0', 0, 0]);
      return { ...kept, packed: packed(this.visible.pixels) };
    });
    this.#clear(width, height);
    this.visible.pixels.set(pixels);
    return layers;
  }

  /** A view that a picture was kept of. */
  static of(picture) {
    const view = new View();
    // Paths come first, while no layer has a pixel that a fill would change.
    for (const { name, path, isFilled, width, height } of picture) {
      for (const rectangle of path) view.#layers.draw(['rect', name, ...rectangle]);
      if (isFilled) view.#layers.draw(['cfill', 14, name, 0, 0, 0, 255]);
      Object.assign(view.#shape(name), { width, height, path: [...path], isFilled });
    }
    for (const { name, width, height, packed } of picture) {
      if (name === '0') continue;
      view.#clear(width, height);
      unpack(packed, view.visible.pixels);
      view.#layers.draw(['size', name, width, height]);
      view.#layers.draw(['copy', '0', 0, 0, width, height, 14, name, 0, 0]);
    }
    const visible = picture.find(({ name }) => name === '0');
    if (visible) {
      view.#clear(visible.width, visible.height);
      unpack(visible.packed, view.visible.pixels);
    } else {
      view.#clear(0, 0);
    }
    return view;
  }

  // The visible layer with no pixels but clear ones.
  #clear(width, height) {
    this.#layers.draw(['size', '0', 0, 0]);
    this.#layers.draw(['size', '0', width, height]);
  }
}

function textOf(bytes) {
  try {
    return new TextDecoder('utf-8', { fatal: true, ignoreBOM: true }).decode(bytes);
  } catch {
    throw new Unreadable('no UTF-8');
  }
}

/** The moments of a recording, of the lines `MILLISECONDS BYTES` of a `.times` file, one a read. */
export function momentsOf(text) {
  let bytes = 0;
  return text.split('\\n').filter((line) => line !== '').map((line) => {
    const found = /^([0-9]{1,15}) ([0-9]{1,15})$/.exec(line);
    if (found === null) throw new Unreadable(`no moment: ${line}`);
    bytes += Number(found[2]);
    return { moment: Number(found[1]), bytes };
  });
}

/** A recording that is played. Its syncs are known as far as it was read. */
export class Player {
  /** Where each sync ends, in characters, its stamp, and its moment, which is the stamp where no moments are given. */
  syncs = [];
  /** How many characters were read. */
  read = 0;
  /** Why the reading ended before the text did, where it did: an instruction that can't be read. */
  fault = null;
  #text;
  #moments;
  #nextMoment = 0;
  #bytes = 0;
  #isAscii;
  // The pictures that were kept, with the number of syncs before each.
  #kept = [{ count: 0, end: 0, picture: [] }];
  #spacing = 1;
  // What is shown, and how many syncs were played for it.
  #shown = new View();
  #count = 0;

  /** `bytes` is the recording, and `moments` what `momentsOf` gives of its times, or null. */
  constructor(bytes, moments = null) {
    this.#text = textOf(bytes);
    this.#isAscii = this.#text.length === bytes.length;
    this.#moments = moments;
  }

  /** How many characters the recording has. */
  get length() {
    return this.#text.length;
  }

  /** Whether the bar is by moments, and not by stamps. */
  get hasMoments() {
    return this.#moments !== null;
  }

  /** The visible layer's width, height and pixels at the sync that is shown. */
  get visible() {
    return this.#shown.visible;
  }

  /** The number of the sync that is shown, from 0, or -1 before the first. */
  get at() {
    return this.#count - 1;
  }

  /** Reads the recording to its end, or to what can't be read, and tells after each part how far it came. */
  async index(tell = () => {}) {
    const view = new View();
    let kept = 0;
    let spent = 0;
    let start = performance.now();
    try {
      for (const { instruction, end } of instructionsFrom(this.#text, 0)) {
        view.draw(instruction);
        this.read = end;
        if (instruction[0] !== 'sync') continue;
        this.#addSync(instruction[1], end);
        const now = performance.now();
        if (end - kept >= KEPT_EVERY * this.#spacing || spent + now - start > KEPT_AFTER * this.#spacing) {
          this.#keep(view, end);
          kept = end;
          spent = 0;
          start = performance.now();
        }
        if (now - start > PART) {
          spent += now - start;
          tell();
          await new Promise((resolve) => { setTimeout(resolve); });
          start = performance.now();
        }
      }
    } catch (fault) {
      if (!(fault instanceof Unreadable)) throw fault;
      this.fault = fault;
    }
    tell();
  }

  #addSync(stamp, end) {
    const sync = { end, stamp: Number(stamp), moment: Number(stamp) };
    if (this.#moments !== null) sync.moment = this.#momentOf(end);
    this.syncs.push(sync);
  }

  // The moment of the read that brought the last byte before a place. Places come in order.
  #momentOf(end) {
    const before = this.syncs.at(-1)?.end ?? 0;
    this.#bytes += this.#isAscii ? end - before : new TextEncoder().encode(this.#text.slice(before, end)).length;
    while (this.#nextMoment < this.#moments.length - 1 && this.#moments[this.#nextMoment].bytes < this.#bytes) this.#nextMoment++;
    return this.#moments[this.#nextMoment]?.moment ?? 0;
  }

  // Where there are many pictures, every second one goes, and those to come are further apart.
  #keep(view, end) {
    this.#kept.push({ count: this.syncs.length, end, picture: view.picture() });
    if (this.#kept.length <= MOST_KEPT) return;
    this.#kept = this.#kept.filter((_, place) => place % 2 === 0);
    this.#spacing *= 2;
  }

  /** The number of the last sync whose moment isn't above, or -1 where there is none. Moments rise. */
  find(moment) {
    let [least, most] = [0, this.syncs.length];
    while (least < most) {
      const middle = (least + most) >> 1;
      if (this.syncs[middle].moment <= moment) least = middle + 1;
      else most = middle;
    }
    return least - 1;
  }

  /** The number of the last sync whose stamp isn't above, or -1. */
  findStamp(stamp) {
    return this.syncs.filter((sync) => sync.stamp <= stamp).length - 1;
  }

  /** Shows the sync of this number: from the one that is shown, or the picture that was kept nearest before it. */
  seek(k) {
    const nearest = this.#kept.filter(({ count }) => count <= k + 1).at(-1);
    const goesOn = this.#count <= k + 1 && this.#count >= nearest.count;
    const from = goesOn ? this.syncs[this.#count - 1]?.end ?? 0 : nearest.end;
    if (!goesOn) {
      this.#shown = View.of(nearest.picture);
      this.#count = nearest.count;
    }
    const to = this.syncs[k].end;
    if (from < to) {
      for (const { instruction, end } of instructionsFrom(this.#text, from)) {
        this.#shown.draw(instruction);
        if (end === to) break;
      }
    }
    this.#count = k + 1;
  }
}
"
}

// `/request.js`.
fn request_js() -> &'static str {
    "\
// What the page is asked for, by the part of its address behind `#`, which a browser sends to no server:
//
//   #id=$UUID                      joins a session, and types if the session lets joiners type
//   #id=$UUID&read-only            joins a session, and only looks on
//   #id=$UUID&link                 joins by a link that was made for it, whose ID isn't the session's; with &read-only, too
//   #hostname=HOST&port=PORT&columns=80&rows=24&terminal-type=TYPE      fills the form that opens a session
//
// and with &keep-size the session's size stays, whatever the window's. One of given columns or rows stays, too.

import { CELL_HEIGHT, CELL_WIDTH } from './font.js';

/** The terminal type that a host is told: the one of Debian's ncurses-base that the screen and the keys do best
 *  (`tools/terminal-types`). */
export const TERMINAL_TYPE = 'linux';

/** What an address asks for, or null where it asks for nothing. */
export function requestOf(fragment) {
  const given = new URLSearchParams(fragment.replace(/^#/, ''));
  const id = given.get('id');
  if (id) return { id, readOnly: given.has('read-only'), keepsSize: given.has('keep-size'), isLink: given.has('link') };
  if (!given.get('hostname')) return null;
  return sessionOf(given);
}

/** A session that is to be opened, of the fields of the form. */
export function sessionOf(fields) {
  const field = (name, other) => String(fields.get(name) || other);
  const [columns, rows] = [field('columns', ''), field('rows', '')];
  const keepsSize = fields.has('keep-size') || columns !== '' || rows !== '';
  return { hostname: field('hostname', ''), port: field('port', '23'), columns, rows, type: field('terminal-type', TERMINAL_TYPE), readOnly: false, keepsSize };
}

/** The size of a session that is opened: columns and rows that aren't given are those for which the window has room. */
export const sizeOf = ({ columns, rows }, room) => ({ columns: Number(columns || room.columns), rows: Number(rows || room.rows) });

/** The fields of the tunnel's form for it, and for a session that is opened its size. Who has its ID may join such a one,
 *  so that its page can come back; and only that page is told it. */
export function formOf({ id, readOnly, hostname, port, type }, size) {
  if (id) return { id, 'read-only': String(readOnly) };
  return { hostname, port, 'terminal-type': type, sharing: 'control', width: String(size.columns * CELL_WIDTH), height: String(size.rows * CELL_HEIGHT) };
}

/** What is wrong with a field of the form, in words, or nothing. The limits are the gateway's (docs/PROTOCOL.md). */
export function faultOf(name, value) {
  const isIn = (least, most) => /^[0-9]{1,5}$/.test(value) && Number(value) >= least && Number(value) <= most;
  switch (name) {
    case 'hostname': return value.trim() ? '' : 'Name the host to connect to.';
    case 'port': return isIn(1, 65535) ? '' : 'A port is a number from 1 to 65535.';
    case 'columns': return value === '' || isIn(1, 512) ? '' : 'A screen has 1 to 512 columns.';
    case 'rows': return value === '' || isIn(1, 256) ? '' : 'A screen has 1 to 256 rows.';
    case 'terminal-type': return /^[!-~]{1,40}$/.test(value) ? '' : 'A terminal type is a word of at most 40 letters, digits and signs.';
    case 'session': return idIn(value) ? '' : 'Give the link that you were sent, or the ID: $ and 36 characters.';
    default: return '';
  }
}

// Where a tab keeps the session that it shows.
const KEY = 'guacgate';

/** Keeps a session whose ID is known, so that a reload comes back to it, or forgets it. */
export function remember(request) {
  try {
    const { id, readOnly, keepsSize, isLink } = request ?? {};
    if (id) sessionStorage.setItem(KEY, JSON.stringify({ id, readOnly, keepsSize, isLink }));
    else sessionStorage.removeItem(KEY);
  } catch { /* Then the address alone leads back. */ }
}

/** The session that this tab has shown, where it is loaded again, or null. */
export function remembered() {
  const [way] = /** @type {PerformanceNavigationTiming[]} */ (performance.getEntriesByType('navigation'));
  try { return way?.type === 'reload' ? JSON.parse(sessionStorage.getItem(KEY) ?? 'null') : null; } catch { return null; }
}

const idIn = (text) => text.replace('%24', '$').match(/\\$[0-9a-f]{8}(-[0-9a-f]{4}){3}-[0-9a-f]{12}/)?.[0];

/** The address that joins by an ID. */
export function linkOf({ id, readOnly, keepsSize = false, isLink = false }, address) {
  return `${address.split('#')[0]}#id=${encodeURIComponent(id)}${isLink ? '&link' : ''}${readOnly ? '&read-only' : keepsSize ? '&keep-size' : ''}`;
}

/** The address that joins the session of a text, which is its ID or a link to it. A link keeps its own way. */
export function joinBy(text, { readOnly = false, keepsSize = false }, address) {
  const has = (word) => new RegExp(`[#&]${word}`).test(text);
  const asked = { id: idIn(text), readOnly: readOnly || has('read-only'), keepsSize: keepsSize || has('keep-size'), isLink: has('link') };
  return linkOf(asked, /^https?:/.test(text) ? text : address);
}

/** What a window with it is called. A session's first digits tell it from others, and lead nobody into it. */
export function titleOf({ id, hostname, readOnly }) {
  if (!id) return hostname;
  return `${readOnly ? 'looking on at' : 'session'} ${id.slice(0, 9)}`;
}
"
}

// `/rest.js`.
fn rest_js() -> &'static str {
    "\
// How long a page waits before it asks again.

/** Rests in milliseconds: between reads that found nothing, and between tries to come back to a gateway that isn't
 *  reached, the fourth of which comes before what is typed has been kept for 10 seconds and is thrown away. `hidden` is
 *  the least one of a page that nobody sees. */
export const READS = { lengths: [0, 10, 20, 40, 80, 160], hidden: 1000, events: ['visibilitychange'] };
export const TRIES = { lengths: [300, 700, 2000, 6500, 10000], hidden: 60000, events: ['online', 'visibilitychange'] };

/** Rests, each of the length that is listed behind the one before, and of the last one from there on. */
export class Rest {
  #of;
  #count = 0;
  #end = () => {};

  /** The events of the page's window end a rest. @param {{ lengths: number[], hidden: number, events: string[] }} of */
  constructor(of) {
    this.#of = of;
  }

  /** Rests once. */
  async once() {
    const { lengths, hidden, events } = this.#of;
    const length = lengths[Math.min(this.#count++, lengths.length - 1)];
    const cut = () => this.cut();
    let timer;
    await new Promise((end) => {
      this.#end = () => end(undefined);
      timer = setTimeout(end, globalThis.document?.hidden ? Math.max(length, hidden) : length);
      events.forEach((name) => globalThis.addEventListener?.(name, cut));
    });
    clearTimeout(timer);
    events.forEach((name) => globalThis.removeEventListener?.(name, cut));
  }

  /** Ends a rest that is under way, and begins anew. */
  cut() {
    this.#end();
    this.#count = 0;
  }
}
"
}

// `/save.js`.
fn save_js() -> &'static str {
    "\
// The lines above the screen, and the screen, as a file of text.

// How long, in milliseconds, a browser may take until it has read what it is given.
const READ = 10000;

/** All lines of an element, with the marks where some may be missing, and without the empty ones at its end. */
export function linesIn(element) {
  const lines = [...element.querySelectorAll('.line, .gap')].map((it) => `${it.textContent.trimEnd()}\\n`);
  return lines.join('').replace(/\\n+$/, '\\n');
}

/** Has the browser keep a text as a file. */
export function saveAs(name, text) {
  const link = document.createElement('a');
  link.href = URL.createObjectURL(new Blob([text], { type: 'text/plain' }));
  link.download = name;
  link.click();
  setTimeout(() => URL.revokeObjectURL(link.href), READ);
}
"
}

// `/scrollback.js`.
fn scrollback_js() -> &'static str {
    "\
// The lines that have left the screen at its top, as far as they were seen: text with its colours, above the screen.

import { faceOf, inkOf, isUnderlined, paperOf, textOf } from './cells.js';
import { cssOf, inkColour, paperColour } from './palette.js';
import { rowElement } from './textlayer.js';

/** How many lines stand in an element together, so that a new line moves few elements. */
const TOGETHER = 100;
const PLAIN_INK = 7;

// Where the look of the characters of a line changes: the ends of its runs of one look. A blank goes with any ink.
function* runsOf(cells, length) {
  let start = 0;
  for (let x = 1; x <= length; x++) {
    if (x < length && isAlike(cells[x - 1], cells[x])) continue;
    yield cells.subarray(start, x);
    start = x;
  }
}

const look = (cell) => cell & 0x1ffff;
const isAlike = (one, other) => look(one) === look(other) || (faceOf(other) === 0x20 && !isUnderlined(one) && !isUnderlined(other) && paperOf(one) === paperOf(other));

// The characters of a run, with the blanks at its end.
const charactersOf = (run) => textOf(run).padEnd(run.length);

/** A line of cells as an element with its colours. */
export function lineElement(cells) {
  let length = cells.length;
  while (length > 0 && faceOf(cells[length - 1]) === 0x20 && paperOf(cells[length - 1]) === 0 && !isUnderlined(cells[length - 1])) length--;
  const row = rowElement('');
  for (const run of runsOf(cells, length)) row.append(runElement(run));
  return row;
}

function runElement(run) {
  const cell = run[0];
  const [ink, paper] = cell < 0 ? [PLAIN_INK, 0] : [inkOf(cell), paperOf(cell)];
  if ((ink === PLAIN_INK || ink === paper) && paper === 0 && !isUnderlined(cell)) return charactersOf(run);
  const span = document.createElement('span');
  span.append(charactersOf(run));
  span.style.color = cssOf(inkColour(ink, paper));
  if (paper !== 0) span.style.backgroundColor = cssOf(paperColour(paper));
  if (cell >= 0 && isUnderlined(cell)) span.style.textDecoration = 'underline';
  return span;
}

/** The lines above a screen. */
export class Scrollback {
  #element;
  #count = 0;
  #isGap = false;
  #most = 0;

  constructor(element) {
    this.#element = element;
  }

  /** How many lines are kept, about: the first ones go by the hundred. */
  set most(lines) {
    this.#most = lines;
    if (lines === 0) this.clear();
    else this.#cut();
  }

  /** Adds lines, each its cells, or null where some may be missing. @param {(Int32Array | null)[]} lines */
  add(lines) {
    if (lines.length === 0 || this.#most === 0) return;
    for (const cells of lines) {
      if (cells === null) this.#mark();
      else this.#append(lineElement(cells));
      this.#isGap = cells === null;
    }
    this.#cut();
  }

  clear() {
    this.#element.replaceChildren();
    this.#count = 0;
    this.#isGap = false;
  }

  // One mark stands for as many gaps as there are behind each other, and none above the first line.
  #mark() {
    if (this.#isGap || this.#count === 0) return;
    const mark = document.createElement('p');
    mark.className = 'gap';
    mark.textContent = 'Lines may be missing here.';
    this.#element.lastElementChild.append(mark);
  }

  #append(line) {
    if (this.#count % TOGETHER === 0) {
      const block = document.createElement('div');
      block.className = 'block';
      this.#element.append(block);
    }
    const block = this.#element.lastElementChild;
    block.append(line);
    this.#count++;
    // Lines may be wider than the screen is now.
    const widest = Math.max(line.textContent.length, Number(block.style.getPropertyValue('--columns')));
    block.style.setProperty('--columns', String(widest));
    // A block that isn't seen isn't laid out, and has the height that its number of lines tells.
    block.style.setProperty('--lines', String(((this.#count - 1) % TOGETHER) + 1));
  }

  #cut() {
    while (this.#count - TOGETHER >= this.#most && this.#count > 0) {
      this.#element.firstElementChild.remove();
      this.#count -= Math.min(TOGETHER, this.#count);
    }
  }
}
"
}

// `/selection.js`.
fn selection_js() -> &'static str {
    "\
// What is selected in the rows of a terminal, as text.

/** The text that is selected within an element's rows: a line each, without the blanks at its end. */
export function selectedText(element) {
  const selection = document.getSelection();
  if (selection === null || selection.isCollapsed || selection.rangeCount === 0) return '';
  const range = selection.getRangeAt(0);
  if (!range.intersectsNode(element)) return '';
  const rows = [...element.querySelectorAll('.line')].filter((row) => range.intersectsNode(row));
  const lines = rows.map((row) => partOf(row, range).replace(/[ \\n]+$/, ''));
  // A whole line is selected up to the beginning of the next one, which isn't meant.
  const last = rows[rows.length - 1];
  if (lines.length > 1 && last.contains(range.endContainer) && isBefore(range, last)) lines.pop();
  return lines.join('\\n');
}

// The text of the part of a row that lies in a range.
function partOf(row, range) {
  const part = document.createRange();
  part.selectNodeContents(row);
  if (row.contains(range.startContainer)) part.setStart(range.startContainer, range.startOffset);
  if (row.contains(range.endContainer)) part.setEnd(range.endContainer, range.endOffset);
  return part.toString();
}

// Whether a range ends before the first character of a row.
function isBefore(range, row) {
  const start = document.createRange();
  start.selectNodeContents(row);
  start.setEnd(range.endContainer, range.endOffset);
  return start.toString() === '' && row.textContent !== '';
}

/** Copies what is selected, as the browser's menu does. It answers whether something was. */
export function copySelected(element) {
  return selectedText(element) !== '' && document.execCommand('copy');
}

/** Gives the browser the text of an element's rows, whenever what is selected there is copied. */
export function copyAsLines(element) {
  document.addEventListener('copy', (event) => {
    const text = selectedText(element);
    if (text === '' || document.activeElement instanceof HTMLInputElement) return;
    event.clipboardData.setData('text/plain', text);
    event.preventDefault();
  });
}

/** What a click in the rows of a terminal does: it tells that keys are wanted, where nothing was selected by it, and with
 *  Shift it selects from the click before. */
export class Mouse {
  #node = null;
  #offset = 0;

  constructor(element, wantsKeys) {
    element.addEventListener('mousedown', (event) => this.#extend(event));
    element.addEventListener('click', () => {
      if (selectedText(element) !== '') return;
      const selection = document.getSelection();
      if (element.contains(selection?.anchorNode ?? null)) [this.#node, this.#offset] = [selection.anchorNode, selection.anchorOffset];
      wantsKeys();
    });
  }

  // The browser does so itself where something is selected.
  #extend(event) {
    const selection = document.getSelection();
    if (!event.shiftKey || event.button !== 0 || selection?.isCollapsed === false || !this.#node?.isConnected) return;
    const place = placeAt(event.clientX, event.clientY);
    if (place === null) return;
    event.preventDefault();
    // Keys go to the terminal again once one is pressed, and the selection ends then.
    /** @type {HTMLElement} */ (document.activeElement)?.blur();
    const length = this.#node.data?.length ?? this.#node.childNodes.length;
    selection.setBaseAndExtent(this.#node, Math.min(this.#offset, length), place.node, place.offset);
  }
}

/** The place in the page's text at a point of the window. */
export function placeAt(x, y) {
  const document = /** @type {any} */ (globalThis.document);
  if (document.caretPositionFromPoint) {
    const place = document.caretPositionFromPoint(x, y);
    return place && { node: place.offsetNode, offset: place.offset };
  }
  const range = document.caretRangeFromPoint?.(x, y);
  return range ? { node: range.startContainer, offset: range.startOffset } : null;
}
"
}

// `/share.js`.
fn share_js() -> &'static str {
    "\
// Links by which others join the session that a page shows. Whoever has the session's ID may make them and take them back
// (docs/PROTOCOL.md, \"Links\"); a link's own ID is another, and leads to no further link.

import { wordsOfLinks } from './messages.js';
import { linkOf } from './request.js';
import { Refusal, TIMES } from './tunnel.js';

/** How often a link may be used. */
export const USES = { least: 1, most: 1000000 };

// How often one is used where nobody says: each who comes back uses it too, and with a class all do at once.
const USUAL = { view: '1000', control: '10' };

/**
 * A link that was made here.
 * @typedef {{ id: string, readOnly: boolean, uses: number, keepsSize: boolean }} Link
 */

// Where a tab keeps the links that it has made.
const KEY = 'guacgate-links';

/** What the gateway answers to a request for links. */
async function answerTo(address, query, body = '') {
  const abort = new AbortController();
  const timer = setTimeout(() => abort.abort(), TIMES.limit);
  try {
    const response = await fetch(`${address}?${query}`, { method: 'POST', body, cache: 'no-store', signal: abort.signal });
    if (!response.ok) throw new Refusal(Number(response.headers.get('Guacamole-Status-Code')) || 0, response.status);
    return await response.text();
  } catch (fault) {
    throw fault instanceof Refusal ? fault : new Refusal(0, 0);
  } finally {
    clearTimeout(timer);
  }
}

/** The links that a tab has made, by session. */
export class Links {
  #address;
  #session = '';
  /** @type {Link[]} */
  made = [];

  constructor(address) {
    this.#address = address;
  }

  /** Has those of a session from now on. */
  use(session) {
    if (session === this.#session) return;
    this.#session = session;
    let kept = null;
    try { kept = JSON.parse(sessionStorage.getItem(KEY) ?? 'null'); } catch { /* Then they are forgotten. */ }
    this.made = kept?.session === session ? kept.made : [];
  }

  /** Makes one, and answers it. @param {{ readOnly: boolean, uses: number, keepsSize: boolean }} asked @returns {Promise<Link>} */
  async make(asked) {
    const form = new URLSearchParams({ id: this.#session, role: asked.readOnly ? 'view' : 'control', uses: String(asked.uses) });
    const link = { ...asked, id: await answerTo(this.#address, 'make', String(form)) };
    this.#keep([...this.made, link]);
    return link;
  }

  /** Takes one back: nobody else joins by it. One that the gateway doesn't know leads nowhere either. @param {Link} link */
  async revoke(link) {
    await answerTo(this.#address, `revoke:${link.id.replace('$', '')}`).catch((refusal) => {
      if (refusal.code !== 516) throw refusal;
    });
    this.#keep(this.made.filter((it) => it !== link));
  }

  #keep(made) {
    this.made = made;
    try { sessionStorage.setItem(KEY, JSON.stringify({ session: this.#session, made })); } catch { /* They are known until the page is left. */ }
  }
}

/** Whether a text is a number of uses. */
export const isUses = (text) => /^[0-9]{1,7}$/.test(text) && Number(text) >= USES.least && Number(text) <= USES.most;

/** The panel that makes links, and lists them. */
export class Share {
  #panel;
  #links;
  #keepsSize;

  /** @param {HTMLElement} panel @param {Links} links @param {() => boolean} keepsSize  whether who types by a link keeps the size */
  constructor(panel, links, keepsSize) {
    this.#panel = panel;
    this.#links = links;
    this.#keepsSize = keepsSize;
    const form = panel.querySelector('form');
    const uses = /** @type {HTMLInputElement} */ (form.elements.namedItem('uses'));
    const role = /** @type {HTMLSelectElement} */ (form.elements.namedItem('role'));
    let isChosen = false;
    role.addEventListener('change', () => { if (!isChosen) uses.value = USUAL[role.value]; });
    uses.addEventListener('input', () => { isChosen = true; });
    uses.addEventListener('input', () => uses.setCustomValidity(isUses(uses.value) ? '' : 'A number from 1 to 1,000,000.'));
    form.addEventListener('submit', (event) => {
      event.preventDefault();
      const given = new FormData(form);
      this.#try('make', () => this.#make(given.get('role') === 'view', Number(given.get('uses'))));
    });
  }

  /** Shows the links to a session, or is hidden where its ID isn't known. */
  use(session) {
    this.#panel.hidden = session === '';
    this.#links.use(session);
    this.#tell('');
    this.#list();
  }

  async #make(readOnly, uses) {
    const link = await this.#links.make({ readOnly, uses, keepsSize: this.#keepsSize() });
    this.#list();
    await this.#copy(link);
  }

  async #copy(link) {
    const field = this.#panel.querySelector(`[data-link=\"${link.id}\"] input`);
    if (field instanceof HTMLInputElement) field.select();
    try {
      await navigator.clipboard.writeText(addressOf(link));
      this.#tell('The link is copied.');
    } catch {
      // A page that came without encryption can't copy by itself.
      this.#tell('Copy the link from its field.');
    }
  }

  async #revoke(link) {
    await this.#links.revoke(link);
    this.#list();
    this.#tell('Nobody else joins by that link. Who is here stays.');
  }

  /** @param {'make' | 'revoke'} what */
  async #try(what, act) {
    try {
      await act();
    } catch (refusal) {
      this.#tell(wordsOfLinks(refusal, what));
    }
  }

  #tell(words) {
    this.#panel.querySelector('[role=status]').textContent = words;
  }

  #list() {
    const parts = this.#links.made.map((link) => {
      const line = document.createElement('li');
      line.dataset.link = link.id;
      const what = `${link.readOnly ? 'looks on' : 'types'}, ${link.uses === 1 ? 'once' : `${link.uses.toLocaleString('en')} times`}`;
      const field = Object.assign(document.createElement('input'), { readOnly: true, value: addressOf(link) });
      field.setAttribute('aria-label', `link: ${what}`);
      const words = Object.assign(document.createElement('span'), { textContent: what });
      line.append(words, buttonOf('Copy', () => this.#try('make', () => this.#copy(link))), buttonOf('Revoke', () => this.#try('revoke', () => this.#revoke(link))), field);
      return line;
    });
    this.#panel.querySelector('ul').replaceChildren(...parts);
  }
}

const addressOf = (link) => linkOf({ ...link, isLink: true }, location.href);

function buttonOf(word, act) {
  const button = Object.assign(document.createElement('button'), { type: 'button', textContent: word });
  button.addEventListener('click', act);
  return button;
}
"
}

// `/sharp.js`.
fn sharp_js() -> &'static str {
    "\
// Sharp text: the cells of the screen, drawn with a font of the browser at the device's own pixels. Each picture of a
// cell is made once, and then copied to where it stands; only cells that have changed are drawn. Lines and blocks have
// the gateway's pixels, as large as a cell is, so that they join.

import { BOX, CELL_HEIGHT, CELL_WIDTH, LEFT, RIGHT, barsOf, hasBars } from './font.js';
import { PICTURE, faceOf, inkOf, isUnderlined, paperOf } from './cells.js';
import { inkColour, paperColour, pixelOf } from './palette.js';

/** The fonts that text is drawn with. */
export const FAMILY = 'ui-monospace, Menlo, Consolas, \"DejaVu Sans Mono\", \"Liberation Mono\", monospace';

/** The advance of a character, as a part of the font's size. */
export function advance() {
  const context = document.createElement('canvas').getContext('2d');
  context.font = `100px ${FAMILY}`;
  return context.measureText('M').width / 100;
}

/**
 * The size of a cell in pixels of the device, and that of the font, whose advance is the cell's width.
 * @typedef {{ width: number, height: number, font: number }} Cell
 */

// From one line of a text to the next, as a part of the font's size.
const [LEAST_LINE, MOST_LINE] = [1.17, 1.3];
const MOST_SIDE = 16000;
const LEAST_WIDTH = 2;
const MOST = { columns: 512, rows: 256 };

/**
 * The cell of a screen that fits into a room. Where a font's size is wanted, the cell has that size, whether it fits or
 * not. All lengths are in pixels of the device. @returns {Cell}
 */
export function cellFor({ columns, rows, room, wanted, ratio }) {
  const most = Math.max(LEAST_WIDTH, Math.floor(MOST_SIDE / Math.max(columns, 2 * rows)));
  const wide = wanted ? Math.round(wanted * ratio) : Math.floor(Math.min(room.width / columns, (room.height / rows / LEAST_LINE) * ratio));
  const width = Math.min(Math.max(wide, LEAST_WIDTH), most);
  const font = width / ratio;
  const high = wanted ? font * MOST_LINE : Math.min(room.height / rows, font * MOST_LINE);
  return { width, height: Math.max(Math.floor(high), Math.ceil(font)), font };
}

/** How many columns and rows a room has, of cells that are so large, within what a session may have.
 *  @param {{ width: number, height: number }} room @param {{ width: number, height: number }} cell
 *  @param {import('./follow.js').Size} least */
export function sizeFor(room, cell, least) {
  const count = (length, side, fewest, most) => Math.min(Math.max(Math.floor(length / side), fewest), most);
  return { columns: count(room.width, cell.width, least.columns, MOST.columns), rows: count(room.height, cell.height, least.rows, MOST.rows) };
}

/** A canvas that shows cells as sharp text. */
export class Sharp {
  #canvas;
  #context;
  #pen;
  #columns = 0;
  /** @type {Cell} */
  #cell = { width: 0, height: 0, font: 0 };
  #baseline = 0;
  #image = new ImageData(1, 1);
  #pixels = new Uint32Array(1);
  // What is shown in each cell, and the pictures of cells, which are as large as cells.
  #shown = new Int32Array(0);
  #faces = new Map();
  #tiles = new Map();
  #mostTiles = 0;

  constructor(canvas) {
    this.#canvas = canvas;
    this.#context = canvas.getContext('2d', { alpha: false });
    this.#pen = document.createElement('canvas').getContext('2d', { willReadFrequently: true });
  }

  /** Sets the size of the screen and of its cells. Nothing is shown until `show`. */
  fit(columns, rows, cell) {
    const [width, height] = [columns * cell.width, rows * cell.height];
    Object.assign(this.#canvas, { width, height });
    this.#columns = columns;
    this.#cell = cell;
    this.#image = new ImageData(width, height);
    this.#pixels = new Uint32Array(this.#image.data.buffer);
    this.#shown = new Int32Array(columns * rows).fill(-2);
    this.#faces.clear();
    this.#tiles.clear();
    this.#mostTiles = Math.ceil(2 ** 22 / (cell.width * cell.height));
    Object.assign(this.#pen.canvas, { width: cell.width, height: cell.height });
    this.#pen.font = `${cell.font}px ${FAMILY}`;
    const { fontBoundingBoxAscent: above, fontBoundingBoxDescent: below } = this.#pen.measureText('M');
    this.#baseline = Math.round((cell.height - above - below) / 2 + above);
    this.#pen.fillStyle = this.#pen.strokeStyle = '#fff';
  }

  /** Shows nothing, until `fit` and `show`. */
  clear() {
    this.#context.clearRect(0, 0, this.#canvas.width, this.#canvas.height);
  }

  /**
   * Shows cells, as many as `fit` told. `pictureAt` gives the pixels of the cell of a column and a row.
   * @param {Int32Array} cells @param {(x: number, y: number) => Uint32Array} pictureAt
   */
  show(cells, pictureAt) {
    const [columns, shown] = [this.#columns, this.#shown];
    const rows = cells.length / columns;
    /** @type {[y: number, left: number, right: number][]} */
    const changed = [];
    const tiles = Array(columns).fill(null);
    for (let y = 0, k = 0; y < rows; y++) {
      let [left, right] = [columns, 0];
      for (let x = 0; x < columns; x++, k++) {
        const cell = cells[k];
        tiles[x] = null;
        if (cell === shown[k] && cell !== PICTURE) continue;
        tiles[x] = cell === PICTURE ? this.#enlarged(pictureAt(x, y)) : this.#tiles.get(cell) ?? this.#made(cell);
        if (x < left) left = x;
        right = x + 1;
      }
      if (right > 0) {
        this.#place(tiles, y, left, right);
        changed.push([y, left, right]);
      }
    }
    shown.set(cells);
    this.#paint(changed);
  }

  // One paint where most changed, else one a row.
  #paint(changed) {
    const { width, height } = this.#cell;
    const put = (top, bottom, left, right) => this.#context.putImageData(this.#image, 0, 0, left * width, top * height, (right - left) * width, (bottom - top) * height);
    if (changed.length < 8) changed.forEach(([y, left, right]) => put(y, y + 1, left, right));
    else put(changed[0][0], changed[changed.length - 1][0] + 1, Math.min(...changed.map((it) => it[1])), Math.max(...changed.map((it) => it[2])));
  }

  // Places the pictures of a part of a row, pixel line by pixel line, as they lie in memory.
  #place(tiles, y, left, right) {
    const [pixels, width, height] = [this.#pixels, this.#cell.width, this.#cell.height];
    for (let line = 0; line < height; line++) {
      let to = ((y * height + line) * this.#columns + left) * width;
      for (let x = left; x < right; x++) {
        const tile = tiles[x];
        if (tile === null) { to += width; continue; }
        let from = line * width;
        const end = from + width;
        for (; from + 4 <= end; from += 4, to += 4) {
          pixels[to] = tile[from];
          pixels[to + 1] = tile[from + 1];
          pixels[to + 2] = tile[from + 2];
          pixels[to + 3] = tile[from + 3];
        }
        for (; from < end; from++, to++) pixels[to] = tile[from];
      }
    }
  }

  #made(cell) {
    if (this.#tiles.size >= this.#mostTiles) this.#tiles.clear();
    const tile = this.#drawn(cell);
    this.#tiles.set(cell, tile);
    return tile;
  }

  #drawn(cell) {
    const paper = paperColour(paperOf(cell));
    // Lines and blocks are shown as they are drawn, in their own colours.
    const ink = hasBars(faceOf(cell)) ? paperColour(inkOf(cell)) : inkColour(inkOf(cell), paperOf(cell));
    const strength = this.#face(faceOf(cell));
    const tile = Uint32Array.from(strength, (part) => pixelOf(/** @type {any} */ (paper.map((it, k) => Math.round(it + ((ink[k] - it) * part) / 255)))));
    if (isUnderlined(cell)) {
      const { width, height, font } = this.#cell;
      const thick = Math.max(1, Math.round(font / 15));
      const top = Math.min(height - thick, this.#baseline + Math.max(1, Math.round(font / 9)));
      tile.fill(pixelOf(ink), top * width, (top + thick) * width);
    }
    return tile;
  }

  // How much of each pixel of a cell a face covers, 0 to 255.
  #face(face) {
    let strength = this.#faces.get(face);
    if (strength !== undefined) return strength;
    strength = hasBars(face) ? barred(face, this.#cell.width, this.#cell.height) : this.#penned(face);
    this.#faces.set(face, strength);
    return strength;
  }

  #penned(face) {
    const { width, height } = this.#cell;
    this.#pen.clearRect(0, 0, width, height);
    if (face === BOX || face === LEFT || face === RIGHT) this.#strokeBox(face);
    else if (face < 0x80) this.#pen.fillText(String.fromCharCode(face), 0, this.#baseline);
    // What the font hasn't comes from another one, whose characters may be wider.
    else this.#pen.fillText(String.fromCharCode(face), 0, this.#baseline, width);
    return this.#pen.getImageData(0, 0, width, height).data.filter((_, k) => k % 4 === 3);
  }

  // The box, or its half, which goes on in the next cell.
  #strokeBox(face) {
    const { width, font } = this.#cell;
    const thick = this.#pen.lineWidth = Math.max(1, Math.round(font / 14));
    const [side, top] = [Math.ceil(width / 8) + thick / 2, this.#baseline - Math.round(font * 0.7) + thick / 2];
    const left = face === RIGHT ? -width : side;
    const right = face === LEFT ? 2 * width : width - side;
    this.#pen.strokeRect(left, top, right - left, this.#baseline - top - thick / 2);
  }

  // A picture of a cell, pixel by pixel, as large as the cells here.
  #enlarged(picture) {
    const { width, height } = this.#cell;
    const at = (k, x) => Math.floor(((k - x) / width / height) * CELL_HEIGHT) * CELL_WIDTH + Math.floor((x / width) * CELL_WIDTH);
    return Uint32Array.from({ length: width * height }, (_, k) => picture[at(k, k % width)]);
  }
}

/**
 * How much of each pixel of a cell a face of bars covers, 0 or 255. A bar ends where the next one would begin, so that what
 * meets in the gateway's pixels meets here. But one of a single pixel, as those of double lines, is as thick wherever it
 * begins, and seen in small cells too.
 */
export function barred(face, width, height) {
  const strength = new Uint32Array(width * height);
  for (const [x, y, wide, high] of barsOf(face)) {
    const [left, right] = span(x, wide, CELL_WIDTH, width);
    const [top, bottom] = span(y, high, CELL_HEIGHT, height);
    for (let line = top; line < bottom; line++) strength.fill(255, line * width + left, line * width + right);
  }
  return strength;
}

// From where to where what begins at a part of a cell, and takes so many of its parts, goes in a cell of this length.
function span(at, size, parts, length) {
  const edge = (part) => Math.ceil((part * length) / parts);
  const start = Math.min(edge(at), length - 1);
  const thick = Math.max(1, size === 1 ? Math.round(length / parts) : edge(at + size) - start);
  return [start, Math.min(start + thick, length)];
}
"
}

// `/socket.js`.
fn socket_js() -> &'static str {
    "\
// A tunnel over one WebSocket (docs/PROTOCOL.md, \"The WebSocket tunnel\"). Each message is answered by one, and none comes
// unasked, so the page asks by a clock, which doesn't wait for answers: a long way then counts once.

import { Reader, Unreadable, textOf } from './instructions.js';
import { Timer } from './timer.js';
import { NoWay, Refusal, TIMES, isLast } from './tunnel.js';

/** How long a page rests between its questions, in milliseconds: at first, and at most while something happened within
 *  the time that is `lively`, while nothing did, and in a tab that nobody sees. */
export const QUESTIONS = { first: 10, busy: 40, quiet: 250, hidden: 1000, lively: 60000 };

const SUBPROTOCOL = 'guacamole';
// How many messages may have no answer yet, lest a slow link gets slower.
const MOST_UNANSWERED = 8;
// How long, in milliseconds, a WebSocket may take to open.
const SHAKING = 10000;
const ACKNOWLEDGES = /^4\\.sync,[0-9]+\\.[0-9]+;$/;

/** @typedef {import('./tunnel.js').Tunnel} Tunnel */

/** A tunnel over a WebSocket. @implements {Tunnel} */
export class WebSocketTunnel {
  /** @type {import('./tunnel.js').State} */
  state = 'connecting';
  session = '';
  most = MOST_UNANSWERED;
  #address;
  #tried;
  /** @type {WebSocket | null} */
  #socket = null;
  /** @type {import('./tunnel.js').Hearer} */
  #hearer = { changed() {}, given() {} };
  #reader = new Reader();
  // What has no answer yet, the oldest first, and what is only said once less has none.
  /** @type {{ since: number, done(): void, failed(fault: Error): void }[]} */
  #unanswered = [];
  /** @type {{ text: string, done(): void, failed(fault: Error): void }[]} */
  #waiting = [];
  // An acknowledgement, which goes along with the next message.
  #stamp = '';
  #stirred = 0;
  #rest = QUESTIONS.first;
  #timer = new Timer();
  #limit = 0;
  #looks = 0;
  #seen = () => this.#stir();

  /** @param {string} address  @param {(isThere: boolean) => void} tried  is told whether a WebSocket was opened */
  constructor(address, tried) {
    this.#address = address;
    this.#tried = tried;
  }

  connect(form, hearer) {
    this.#hearer = hearer;
    this.#limit = setTimeout(() => this.#socket?.close(), SHAKING);
    try {
      this.#socket = new WebSocket(this.#address, SUBPROTOCOL);
    } catch {
      return this.#lose(false);
    }
    let isThere = false;
    this.#socket.onopen = () => {
      isThere = true;
      this.#tried(true);
      clearTimeout(this.#limit);
      this.#limit = setTimeout(() => this.cut(), form.id !== undefined ? TIMES.limit : TIMES.opening);
      this.#say(String(new URLSearchParams(form)));
    };
    this.#socket.onmessage = ({ data }) => this.#attempt(() => this.#hear(data));
    this.#socket.onclose = () => this.#lose(isThere);
  }

  // A browser doesn't tell why there is no WebSocket: it may be refused, or nothing is reached.
  #lose(isThere) {
    if (this.state === 'closed') return;
    if (!isThere) this.#tried(false);
    this.#close(isThere ? new Refusal(0, 0) : new NoWay());
  }

  // What isn't foreseen closes it.
  #attempt(act) {
    try {
      if (this.state !== 'closed') act();
    } catch (fault) {
      this.#close(fault);
    }
  }

  #hear(text) {
    if (typeof text !== 'string') throw new Unreadable('a message that is no text');
    const answered = this.#unanswered.shift();
    if (answered === undefined) throw new Unreadable('a message that nothing asked for');
    answered.done();
    const instructions = this.#reader.read(text);
    this.#give(this.state === 'connecting' ? this.#begin(instructions) : instructions);
  }

  // The first answer tells the session's ID, or why there is none. It answers what stands behind that.
  #begin(instructions) {
    const [[opcode, ...values] = [''], ...others] = instructions;
    if (opcode === 'error') throw new Refusal(Number(values[1]), 0);
    if (opcode !== 'ready') throw new Unreadable('an answer without an ID');
    this.session = values[0];
    clearTimeout(this.#limit);
    globalThis.document?.addEventListener('visibilitychange', this.#seen);
    this.#looks = setInterval(() => this.#look(), TIMES.betweenLooks);
    this.#stir();
    this.#become('open');
    return others;
  }

  #give(instructions) {
    if (instructions.length > 0) {
      this.#stir();
      this.#hearer.given(instructions);
    }
    if (instructions.some(isLast)) this.#close();
    else this.#flush();
  }

  send(text) {
    if (this.state === 'closed') return Promise.reject(new Refusal(0, 0));
    this.#stir();
    if (ACKNOWLEDGES.test(text)) {
      this.#stamp = text;
      return Promise.resolve();
    }
    return new Promise((done, failed) => {
      this.#waiting.push({ text, done: () => done(), failed });
      this.#flush();
    });
  }

  #flush() {
    while (this.#waiting.length > 0 && this.#unanswered.length < MOST_UNANSWERED) {
      const { text, done, failed } = this.#waiting.shift();
      this.#say(text, done, failed);
    }
  }

  #say(text, done = () => {}, failed = (_) => {}) {
    this.#unanswered.push({ since: performance.now(), done, failed });
    this.#socket.send(this.#stamp + text);
    this.#stamp = '';
  }

  #ask() {
    if (this.#unanswered.length < MOST_UNANSWERED) this.#say('');
    const isLively = performance.now() - this.#stirred < QUESTIONS.lively;
    this.#rest = Math.min(2 * this.#rest, isLively ? QUESTIONS.busy : QUESTIONS.quiet);
    this.#askLater();
  }

  // Something has happened, so more may soon.
  #stir() {
    this.#stirred = performance.now();
    this.#rest = QUESTIONS.first;
    this.#askLater();
  }

  #askLater() {
    if (this.state !== 'closed') this.#timer.set(() => this.#attempt(() => this.#ask()), globalThis.document?.hidden ? QUESTIONS.hidden : this.#rest);
  }

  #look() {
    const silent = performance.now() - (this.#unanswered[0]?.since ?? Infinity);
    if (silent > TIMES.limit) this.cut();
    else this.#become(silent > TIMES.stalled ? 'unstable' : 'open');
  }

  cut() {
    this.#close(new Refusal(0, 0));
  }

  disconnect() {
    if (this.state === 'closed') return;
    if (this.#socket?.readyState === WebSocket.OPEN) this.#socket.send(textOf('disconnect'));
    this.#close();
  }

  /** The gateway sees the end of a connection, and the place with it. */
  async giveBack() {}

  #become(state) {
    if (state === this.state || this.state === 'closed') return;
    this.state = state;
    this.#hearer.changed(state);
  }

  /** @param {Error} [fault] */
  #close(fault) {
    if (this.state === 'closed') return;
    this.state = 'closed';
    clearTimeout(this.#limit);
    this.#timer.end();
    clearInterval(this.#looks);
    globalThis.document?.removeEventListener('visibilitychange', this.#seen);
    this.#socket?.close();
    for (const { done, failed } of [...this.#unanswered, ...this.#waiting]) fault ? failed(fault) : done();
    this.#hearer.changed('closed', fault);
  }
}
"
}

// `/speech.js`.
fn speech_js() -> &'static str {
    "\
// What a screen reader says by itself: the lines that are new, once they have settled, and at most a screen of them a
// second.

const SETTLED = 300;
const BETWEEN = 1000;

/** What is new in a line: what was added at its end, or all of it where it is another one. */
export function newPart(before, now) {
  return (now.startsWith(before) ? now.slice(before.length) : now).trim();
}

/** Says the new lines of a screen in an element that is a live region. */
export class Speech {
  #region;
  #timers;
  // The screen as it was last said, and as it is.
  #said = [];
  #lines = [];
  #waiting = [];
  #typed = '';
  #timer = 0;
  #first = 0;
  #isOn = true;

  /** `timers` has the calls of a browser's window for time. */
  constructor(region, timers = { set: (act, time) => setTimeout(act, time), clear: (timer) => clearTimeout(timer), now: () => Date.now() }) {
    this.#region = region;
    this.#timers = timers;
  }

  get isOn() {
    return this.#isOn;
  }

  set isOn(isOn) {
    this.#isOn = isOn;
    this.#waiting = [];
    this.#said = this.#lines;
    if (!isOn) this.#region.replaceChildren();
  }

  /** The screen has these lines, and those that are gone went off its top since the last call. */
  note(lines, gone) {
    for (const line of gone) {
      const [before, ...rest] = this.#said;
      this.#said = rest;
      this.#await(before ?? '', line);
    }
    this.#lines = [...lines];
    if (!this.#isOn) { this.#said = this.#lines; return; }
    if (gone.length === 0 && lines.every((line, y) => line === (this.#said[y] ?? ''))) return;
    const now = this.#timers.now();
    if (this.#timer === 0) this.#first = now;
    else this.#timers.clear(this.#timer);
    this.#timer = this.#timers.set(() => this.#say(), Math.max(0, Math.min(SETTLED, this.#first + BETWEEN - now)));
  }

  /** The screen has so many columns now. What is left of a line isn't new. */
  cut(columns) {
    this.#said = this.#said.map((line) => line.slice(0, columns).trimEnd());
  }

  /** A character was typed, whose echo needs not be said. */
  typed(character) {
    this.#typed = (this.#typed + character).slice(-200);
  }

  #await(before, now) {
    const part = this.#isOn ? newPart(before, now) : '';
    if (part !== '') this.#waiting.push(part);
    if (this.#waiting.length > 2 * this.#lines.length) this.#waiting.splice(0, this.#waiting.length - this.#lines.length);
  }

  #say() {
    this.#timer = 0;
    this.#lines.forEach((line, y) => this.#await(this.#said[y] ?? '', line));
    this.#said = this.#lines;
    const parts = this.#waiting.slice(-this.#lines.length);
    this.#waiting = [];
    const isEcho = parts.length === 1 && this.#typed.endsWith(parts[0]);
    this.#typed = '';
    if (isEcho || parts.length === 0) return;
    this.#region.replaceChildren(...parts.map((part) => {
      const line = document.createElement('p');
      line.textContent = part;
      return line;
    }));
  }
}
"
}

// `/style.css`.
fn style_css() -> &'static str {
    "\
/* The terminal fills the window, with one line of text below it. */
:root { --ground: #101316; --field: #101316; --raised: #181c21; --edge: #2c333b; --text: #d7dce1; --quiet: #9aa5b1; --accent: #6cb2f5; --good: #58c48a; --warn: #e8bd4f; --bad: #f2777a; color-scheme: dark; }
@media (prefers-color-scheme: light) { :root { --ground: #dfe3e7; --field: #fff; --raised: #f3f5f7; --edge: #b9c1c9; --text: #1b2127; --quiet: #4d5863; --accent: #1a63b0; --good: #1d8549; --warn: #7a5000; --bad: #b3261e; color-scheme: light; } }
* { box-sizing: border-box; }
html, body { height: 100%; margin: 0; background: var(--ground); color: var(--text); font: 14px/1.45 system-ui, sans-serif; }
body { display: flex; flex-direction: column; height: 100dvh; }
main { flex: 1; min-height: 0; display: grid; place-items: center; overflow: auto; }
[hidden] { display: none !important; }
.unseen { position: absolute; width: 1px; height: 1px; margin: 0; overflow: hidden; clip-path: inset(50%); white-space: nowrap; }

#forms { display: flex; flex-wrap: wrap; gap: 1.25em; place-content: center; padding: 1.5em; }
form { display: flex; flex-direction: column; gap: .9em; width: min(22em, 100%); padding: 1.5em; background: var(--raised); border: 1px solid var(--edge); border-radius: 10px; }
h1 { font-size: 1.2em; font-weight: 600; margin: 0 0 .2em; }
form p { margin: 0; font-size: .92em; color: var(--quiet); }
form > button { margin-top: auto; }
label { display: grid; gap: .3em; }
.check { display: flex; gap: .5em; align-items: center; }
.check input { flex: none; }
.row { display: grid; grid-template-columns: 1fr 1fr 1fr; gap: .7em; }
input, select, button { font: inherit; padding: .4em .6em; min-width: 0; border-radius: 6px; border: 1px solid #67727e; background: var(--field); color: inherit; }
input::placeholder { color: var(--quiet); }
input:user-invalid { border-color: var(--bad); }
button { background: #2563a8; border-color: #2563a8; color: #fff; cursor: pointer; }
button:hover { background: #2f74c0; }
summary { cursor: pointer; color: var(--quiet); border-radius: 4px; }
details[open] > summary { margin-bottom: .5em; }
:is(input, select, button, a, summary):focus-visible { outline: 2px solid var(--accent); outline-offset: 2px; }

/* Above the terminal, which fills the window, are the lines that have left it. */
#screen { width: 100%; height: 100%; overflow: auto; scrollbar-gutter: stable; scrollbar-color: #4b5560 transparent; forced-color-adjust: none; cursor: text; }
#screen[data-address] { cursor: pointer; }
#screen[data-turning] { overflow: hidden; }
#screen:not(:has(#sheet)) { display: grid; place-items: center; }
#sheet { width: fit-content; min-width: 100%; min-height: 100%; padding: 0 10px; display: flex; flex-direction: column; align-items: center; }
#stage { flex: 1 0 auto; min-height: 100cqh; padding: 10px 0; display: grid; place-content: center; }
#screen { container-type: size; }
#terminal { position: relative; background: #000; box-shadow: 0 0 0 5px #000; outline: 1px solid var(--edge); outline-offset: 5px; }
#terminal:focus-within { outline-color: #4d7fb3; }
#terminal > * { position: absolute; left: 0; top: 0; }
#terminal canvas { width: 100%; height: 100%; display: none; }
#picture { image-rendering: pixelated; }
#screen[data-text=\"exact\"] #picture, #screen[data-text=\"sharp\"] #sharp { display: block; }
#text, #scrollback, .probe { font: var(--font)/var(--cell-height) var(--family); letter-spacing: var(--spacing); font-variant-ligatures: none; font-kerning: none; text-size-adjust: none; -webkit-text-size-adjust: none; }
#text { width: 100%; height: 100%; overflow: hidden; color: transparent; }
.line { height: var(--cell-height); white-space: pre; overflow-wrap: normal; }
.probe { position: absolute; visibility: hidden; }
#scrollback { width: var(--width, 0); color: #aaa; }
#scrollback:not(:empty) { padding-bottom: 2px; }
.block { content-visibility: auto; contain-intrinsic-height: calc(var(--lines) * var(--cell-height)); width: calc(var(--columns, 0) * var(--cell-width)); min-width: 100%; background: #000; }
.gap { margin: 0; padding: .1em 0; font: italic 12px/1.6 system-ui, sans-serif; letter-spacing: 0; color: #9aa5b1; border-top: 1px dashed #4b5560; user-select: none; }
#text ::selection, #scrollback ::selection { background: #2c5c94; color: #fff; }
#screen[data-text=\"exact\"] #text ::selection { background: #4a8fe0a0; color: transparent; }
body[data-state=\"ended\"] #terminal { filter: brightness(.6); }
body[data-state=\"lost\"] #terminal { filter: brightness(.75); }

/* What is asked about is a part of the terminal, above the line at its foot. */
#asking { position: fixed; inset: auto 0 3em; margin: 0 auto; width: min(48em, calc(100vw - 1.8em)); padding: 0; background: #000; color: #d7dce1; border: 1px solid #4d7fb3; font: 14px/1.35 var(--family, monospace); color-scheme: dark; }
#asking::backdrop { background: #0006; }
#asking form { width: auto; gap: .7em; padding: .9em 1.1em; background: none; border: 0; }
#asking h1 { margin: 0; font-size: 1em; color: #e8bd4f; }
#asking pre { margin: 0; max-height: 30vh; overflow: auto; font: inherit; color: #aaa; white-space: pre; scrollbar-color: #4b5560 transparent; }
#asking button, #asking input { border-radius: 0; }
#asking button[value=\"\"] { background: none; color: inherit; border-color: #67727e; }
.buttons { display: flex; gap: .7em; }

/* It has the focus, stands at the cursor, and is seen while an input method shows what it makes. */
#keys { left: calc(var(--x, 0) * var(--cell-width)) !important; top: calc(var(--y, 0) * var(--cell-height)) !important; width: 1px; height: var(--cell-height); padding: 0; border: 0; outline: 0; margin: 0; opacity: 0; scroll-margin: 0 6em; resize: none; overflow: hidden; white-space: pre; font: var(--font)/var(--cell-height) var(--family); background: #20364f; color: #fff; caret-color: transparent; pointer-events: none; }
#keys.composing { opacity: 1; width: calc(var(--length, 1) * 2 * var(--cell-width)); border-bottom: 1px solid var(--accent); }

footer { position: relative; display: flex; flex-wrap: wrap; gap: .2em 1.1em; align-items: center; padding: .3em .9em .3em 2.5em; background: var(--raised); border-top: 1px solid var(--edge); min-height: 2.5em; font-size: 13px; color: var(--quiet); }
body[data-state=\"idle\"] footer, body[data-state=\"idle\"] #touch { display: none; }
/* Beside the first of its lines, of which a phone has several. */
footer::before { content: \"\"; position: absolute; left: .9em; top: .85em; width: .6em; height: .6em; border-radius: 50%; background: var(--warn); }
body[data-state=\"open\"] footer::before { background: var(--good); }
body[data-state=\"ended\"] footer::before { background: var(--bad); }
footer button { padding: .1em .9em; }
#message { font-weight: 600; color: var(--text); }
body:is([data-state=\"unstable\"], [data-state=\"lost\"]) #message { color: var(--warn); }
#notice { color: var(--text); }
/* The line keeps its height, so that the terminal does. */
footer:has(#notice:not(:empty)) #rights, body:not([data-state=\"open\"]) #share { display: none; }
#message:empty, #notice:empty, #rights:empty { display: none; }
#hint { display: none; color: var(--warn); }
body[data-state=\"open\"][data-types]:has(footer :focus) #hint { display: inline; }
#hint ~ .fold:not(.fold ~ .fold), #share[hidden] ~ #panel, body:not([data-state=\"open\"]) #panel { margin-left: auto; }
.fold > summary { padding: .1em .5em; }
.fold[open] > summary { margin: 0; color: var(--text); }
.panel { position: absolute; right: .9em; bottom: calc(100% + .3em); z-index: 1; width: min(24em, calc(100vw - 1.8em)); max-height: calc(100dvh - 5em); overflow: auto; padding: 1.1em 1.2em; background: var(--raised); border: 1px solid var(--edge); border-radius: 10px; box-shadow: 0 8px 28px #000a; color: var(--text); }
.panel form { gap: .7em; width: auto; padding: 0; background: none; border: 0; }
.panel label:not(.check) { grid-template-columns: 1fr 13em; align-items: center; }
.panel dl { margin: 1em 0 .8em; padding-top: .9em; border-top: 1px solid var(--edge); display: grid; gap: .35em; }
.panel dt { color: var(--text); }
.panel dd { margin: -.35em 0 .2em; color: var(--quiet); }
.panel p { margin: 0; color: var(--quiet); }
.panel p[role=\"status\"]:not(:empty) { margin: .8em 0; color: var(--text); }
.panel ul { margin: .8em 0; padding: 0; list-style: none; display: grid; gap: .7em; }
.panel li { display: grid; grid-template-columns: 1fr auto auto; gap: .3em .5em; align-items: center; }
.panel li input { grid-column: 1 / -1; }

/* Where nothing is shown yet, what is told stands in its place. */
body[data-bare] #terminal { background: none; box-shadow: none; outline: 0; }
body[data-bare] #message { position: fixed; inset: auto 1.2em 56%; text-align: center; font-size: 1.4em; }
body[data-bare] #again { position: fixed; top: 50%; left: 50%; translate: -50%; padding: .4em 1.4em; font-size: 1.2em; }
body[data-bare] footer::before { display: none; }

/* Keys that a keyboard on a screen hasn't. */
#touch { display: none; gap: .35em; padding: .35em .5em; background: var(--raised); border-top: 1px solid var(--edge); overflow-x: auto; scrollbar-width: none; }
#touch button { flex: 1 0 auto; min-width: 2.4em; min-height: 2.8em; padding: 0 .3em; background: var(--ground); border-color: var(--edge); color: var(--text); touch-action: manipulation; }
#touch button[aria-pressed=\"true\"] { background: #2563a8; color: #fff; }
/* A phone enlarges a page whose fields have smaller letters. */
@media (pointer: coarse) { input, select { font-size: 16px; } }
@media (pointer: coarse) { body[data-types]:not([data-state=\"ended\"]) #touch { display: flex; } }
"
}

// `/textlayer.js`.
fn textlayer_js() -> &'static str {
    "\
// The characters of the screen, as text that lies over its picture: it can be selected, copied, found and read aloud,
// and is never seen. What is selected stays so while its characters stay: rows that go up take their element with
// them, and of a row that changes only the characters that differ are replaced.

import { textOf } from './cells.js';

/** A row of text. */
export function rowElement(text) {
  const row = document.createElement('div');
  row.className = 'line';
  row.append(text);
  return row;
}

/** Makes the text of a node another one, by replacing what stands between their common beginning and end. */
export function rewrite(node, text) {
  const old = node.data;
  const least = Math.min(old.length, text.length);
  let begin = 0;
  while (begin < least && old[begin] === text[begin]) begin++;
  let end = 0;
  while (end < least - begin && old[old.length - 1 - end] === text[text.length - 1 - end]) end++;
  node.replaceData(begin, old.length - end - begin, text.slice(begin, text.length - end));
}

/** The rows of text over a picture. */
export class TextLayer {
  #element;
  #shown = new Int32Array(0);
  #columns = 0;
  /** The text of each row. @type {string[]} */
  lines = [];

  constructor(element) {
    this.#element = element;
  }

  clear() {
    this.#refit(0, 0);
  }

  /** Shows the cells of a screen, of which so many lines have gone up since the last call. */
  show(cells, columns, gone) {
    if (gone > 0 && gone < this.lines.length) this.#rise(gone);
    if (columns !== this.#columns || cells.length !== this.#shown.length) this.#refit(cells.length / columns, columns);
    for (let y = 0; y < this.lines.length; y++) {
      const [from, to] = [y * columns, (y + 1) * columns];
      if (this.#isShown(cells, from, to)) continue;
      const text = textOf(cells.subarray(from, to));
      if (text === this.lines[y]) continue;
      rewrite(this.#element.children[y].firstChild, text);
      this.lines[y] = text;
    }
    this.#shown.set(cells);
  }

  #isShown(cells, from, to) {
    for (let k = from; k < to; k++) if (cells[k] !== this.#shown[k]) return false;
    return true;
  }

  // Rows that stay keep their elements, and so what is selected of them.
  #refit(rows, columns) {
    this.#columns = columns;
    this.#shown = new Int32Array(rows * columns).fill(-2);
    for (let y = this.lines.length; y < rows; y++) this.#element.append(rowElement(''));
    for (let y = this.lines.length; y > rows; y--) this.#element.lastElementChild.remove();
    this.lines = Array.from({ length: rows }, (_, y) => this.lines[y] ?? '');
  }

  #rise(gone) {
    for (const row of [...this.#element.children].slice(0, gone)) {
      rewrite(row.firstChild, '');
      this.#element.append(row);
    }
    this.lines = [...this.lines.slice(gone), ...Array(gone).fill('')];
    this.#shown.copyWithin(0, gone * this.#columns);
    this.#shown.fill(-2, (this.lines.length - gone) * this.#columns);
  }
}
"
}

// `/timer.js`.
fn timer_js() -> &'static str {
    "\
// A timer that is on time in a tab that nobody sees, too.

/** One timer, which is set anew any number of times. */
export class Timer {
  #timer = 0;
  /** @type {Worker | null} */
  #worker = null;

  /** Acts once behind so many milliseconds, and no longer for what was set before. */
  set(act, length) {
    this.#cut();
    if (globalThis.document?.hidden) this.#setHidden(act, length);
    else this.#timer = setTimeout(act, length);
  }

  #setHidden(act, length) {
    this.#worker ??= new Worker(new URL('clock.js', import.meta.url));
    this.#worker.onmessage = act;
    this.#worker.postMessage(length);
  }

  #cut() {
    clearTimeout(this.#timer);
    if (this.#worker !== null) this.#worker.onmessage = null;
  }

  /** Ends it for good. */
  end() {
    this.#cut();
    this.#worker?.terminate();
    this.#worker = null;
  }
}
"
}

// `/touch.js`.
fn touch_js() -> &'static str {
    "\
// The keys that a keyboard on a screen hasn't, as buttons. Control and Alt hold for the next key.

import { ALT, CONTROL, keysymNamed } from './keysyms.js';

const HELD = { Control: CONTROL, Alt: ALT };

/** Lets the buttons of an element press the keys that their `data-key` names, by a keyboard whose field keeps the focus,
 *  and paste. */
export function buttonsOf(element, field, keyboard, paste) {
  const buttons = [...element.querySelectorAll('button')];
  // A button that takes the focus would hide the keyboard on the screen.
  element.addEventListener('pointerdown', (event) => event.preventDefault());
  element.addEventListener('mousedown', (event) => event.preventDefault());
  const press = async (button) => {
    const { key } = button.dataset;
    if (key === 'Paste') paste(await navigator.clipboard.readText().catch(() => ''));
    else if (key in HELD) button.setAttribute('aria-pressed', String(keyboard.hold(HELD[key])));
    else keyboard.tap(keysymNamed(key));
  };
  buttons.forEach((button) => button.addEventListener('click', () => press(button)));
  field.addEventListener('free', () => buttons.forEach((it) => { if (it.hasAttribute('aria-pressed')) it.setAttribute('aria-pressed', 'false'); }));
  const pasting = buttons.find((it) => it.dataset.key === 'Paste');
  // A page that isn't reached by HTTPS may not read the clipboard.
  if (pasting) pasting.hidden = !navigator.clipboard?.readText;
}
"
}

// `/tunnel.js`.
fn tunnel_js() -> &'static str {
    "\
// Ways to the gateway. A tunnel carries instructions there and back and tells how the link is, as those of Guacamole's
// own client do; a view knows nothing of what it stands on.

import { Reader, Unreadable, textOf } from './instructions.js';
import { READS, Rest, TRIES } from './rest.js';

/** @typedef {'connecting' | 'open' | 'unstable' | 'closed'} State */

/**
 * Who is told of a tunnel: each new state, and with `closed` the fault, where it is closed by one; and the instructions
 * that came together.
 * @typedef {object} Hearer
 * @property {(state: State, fault?: Error) => void} changed
 * @property {(instructions: string[][]) => void} given
 */

/**
 * A tunnel, for one connection.
 * @typedef {object} Tunnel
 * @property {State} state
 * @property {string} session  the ID of the session once it is open, or nothing where the tunnel isn't told it
 * @property {number} most  how many texts may be on their way at once
 * @property {(form: Record<string, string>, hearer: Hearer) => void} connect  opens a session, or joins one
 * @property {(text: string) => Promise<void>} send  sends whole instructions, and ends once they have come to the gateway
 * @property {() => void} cut  gives the link up, as if it was lost
 * @property {() => void} disconnect  leaves, also while the page goes away
 * @property {() => Promise<void>} giveBack  gives back the place of a closed tunnel, or fails where nothing is reached
 */

/** Why a tunnel was never open: its kind can't be had here. Another kind may lead to the gateway. */
export class NoWay extends Error {}

const NO_MEMORY = 512;

/** A request that was refused, or had no answer: `code` is the status of Guacamole, 0 where there is none. */
export class Refusal extends Error {
  constructor(code, status) {
    super(`status ${status}, code ${code}`);
    this.code = code;
    this.status = status;
  }

  /** Whether it is the link's, or the gateway's for a while, so that the same may work later. */
  get mayPass() {
    return this.code === NO_MEMORY || (this.code === 0 && [0, 500, 502, 503, 504].includes(this.status));
  }

  /** Whether the session is over for the viewer. */
  get isOver() {
    return this.code === 516 || this.code === 523;
  }

  /** Whether it tells that nothing was done. A request without an answer may have been heard. */
  get isUndone() {
    return this.mayPass && [500, 502, 503].includes(this.status);
  }
}

/** In milliseconds: how long a session may take to open, and any other answer but that of a read which waits for news;
 *  after which time without an answer a link counts as unstable; how often it is looked at. */
export const TIMES = { opening: 120000, limit: 15000, stalled: 5000, betweenLooks: 500 };
// How long a page that is seen hears nothing, in milliseconds, before it asks whether the gateway is there.
const QUIET = 10000;
// Behind what a read gives.
const END = '0.;';

/** Whether an instruction is the last of a session. @param {string[]} instruction */
export const isLast = ([opcode]) => opcode === 'disconnect' || opcode === 'error';

/** A tunnel over plain HTTP requests (docs/PROTOCOL.md, \"The HTTP tunnel\"): one request opens it, others read what the
 *  viewer is given and write what it sends. @implements {Tunnel} */
export class HttpTunnel {
  /** @type {State} */
  state = 'connecting';
  session = '';
  most = 1;
  #path;
  #opened;
  #id = '';
  /** @type {Hearer} */
  #hearer = { changed() {}, given() {} };
  #reader = new Reader();
  #rest = new Rest(READS);
  // The requests that are under way, and since when those that aren't reads have had no answer.
  #underWay = new Set();
  #asked = new Set();
  #answered = 0;
  #isLost = false;
  #looks = 0;
  #end = () => {};
  /** @type {Promise<void>} */
  #ended = new Promise((resolve) => { this.#end = resolve; });

  /** @param {string} path  @param {() => void} [opened]  is told once it is open */
  constructor(path, opened = () => {}) {
    this.#path = path;
    this.#opened = opened;
  }

  async connect(form, hearer) {
    this.#hearer = hearer;
    this.session = form.id ?? '';
    try {
      // Nobody is told the ID of a session that is opened here, so that it may as well be closed once its viewer has left.
      const asked = new URLSearchParams(this.session !== '' ? form : { ...form, sharing: 'none' });
      this.#id = await this.#answerTo('connect', asked, this.session !== '' ? TIMES.limit : TIMES.opening);
      this.#opened();
      this.#become('open');
      this.#looks = setInterval(() => this.#look(), TIMES.betweenLooks);
      while (this.state !== 'closed') await this.#read();
    } catch (fault) {
      this.#close(fault);
    }
  }

  async #read() {
    // A gateway without memory for an answer gives it to the next read.
    const text = await this.#answerTo('read').catch((fault) => {
      if (fault.code !== NO_MEMORY) throw fault;
      return END;
    });
    if (!text.endsWith(END)) throw new Refusal(0, 0);
    const instructions = this.#reader.read(text.slice(0, -END.length));
    if (!this.#reader.isWhole) throw new Unreadable('an instruction without its end');
    if (instructions.length > 0) this.#hearer.given(instructions);
    if (instructions.some(isLast)) {
      this.#id = '';
      return this.#close();
    }
    // A gateway may answer at once though nothing is new. It isn't asked again as fast as it can answer.
    if (instructions.length === 0 || globalThis.document?.hidden) await this.#rest.once();
    else this.#rest.cut();
  }

  async send(text) {
    this.#rest.cut();
    try {
      await this.#answerTo('write', text, TIMES.limit);
    } catch (fault) {
      // The read that is under way tells that a session is over, and why.
      if (fault.isOver) return this.#ended;
      // Who can join again sees the whole screen then. Who can't goes on with the reads, as long as they are answered.
      if (this.session !== '' || !fault.mayPass) this.#close(fault);
      else this.#regain();
      throw fault;
    }
  }

  cut() {
    this.#close(new Refusal(0, 0));
  }

  disconnect() {
    if (this.#id !== '') navigator.sendBeacon(`${this.#path}?write:${this.#id}`, textOf('disconnect'));
    this.#id = '';
    this.#close();
  }

  async giveBack() {
    if (this.#id === '') return;
    try {
      await this.#answerTo('write', textOf('disconnect'), TIMES.limit);
    } catch (fault) {
      if (fault.mayPass) throw fault;
    }
    this.#id = '';
  }

  #become(state) {
    if (state === this.state || this.state === 'closed') return;
    this.state = state;
    this.#hearer.changed(state);
  }

  /** @param {Error} [fault] */
  #close(fault) {
    if (this.state === 'closed') return;
    this.state = 'closed';
    this.#end();
    clearInterval(this.#looks);
    this.#underWay.forEach((it) => it.abort());
    this.#hearer.changed('closed', fault);
  }

  // Whether the link gives answers. A read may wait as long as nothing happens, so it tells nothing of that.
  #look() {
    const now = performance.now();
    const isSilent = now - Math.min(...this.#asked) > TIMES.stalled;
    this.#become(isSilent || this.#isLost ? 'unstable' : 'open');
    // A machine without a network may be the gateway's own.
    const quiet = globalThis.navigator?.onLine === false ? TIMES.betweenLooks : QUIET;
    if (this.state === 'open' && this.#asked.size === 0 && now - this.#answered > quiet && !globalThis.document?.hidden) this.send('').catch(() => {});
  }

  // Asks until the gateway is there again.
  async #regain() {
    if (this.#isLost) return;
    this.#isLost = true;
    this.#become('unstable');
    const rest = new Rest(TRIES);
    while (this.#isLost && this.state !== 'closed') {
      await rest.once();
      try {
        await this.#answerTo('write', '', TIMES.limit);
        this.#isLost = false;
      } catch (fault) {
        if (!fault.mayPass && !fault.isOver) this.#close(fault);
      }
    }
    this.#become('open');
  }

  // The text that the answer to a request has.
  /** @param {'connect' | 'read' | 'write'} what @param {BodyInit} [body] @param {number} [limit] */
  async #answerTo(what, body = '', limit = 0) {
    const abort = new AbortController();
    const since = performance.now();
    const timer = limit > 0 ? setTimeout(() => abort.abort(), limit) : 0;
    this.#underWay.add(abort);
    if (what === 'write') this.#asked.add(since);
    let response;
    try {
      response = await fetch(`${this.#path}?${what}${what === 'connect' ? '' : `:${this.#id}`}`, { ...(what === 'read' ? {} : { method: 'POST', body }), cache: 'no-store', signal: abort.signal });
      if (response.ok) return await response.text();
    } catch {
      throw new Refusal(0, 0);
    } finally {
      clearTimeout(timer);
      this.#underWay.delete(abort);
      this.#asked.delete(since);
      this.#answered = performance.now();
    }
    throw new Refusal(Number(response.headers.get('Guacamole-Status-Code')) || 0, response.status);
  }
}
"
}

// `/view.js`.
fn view_js() -> &'static str {
    "\
// One view of a session, from its opening to its end, by one tunnel after the other where the link is lost.

import { CELL_HEIGHT, CELL_WIDTH } from './font.js';
import { Unreadable, textOf } from './instructions.js';
import { isModifier } from './keysyms.js';
import { Outbox } from './outbox.js';
import { Rest, TRIES } from './rest.js';
import { NoWay, Refusal } from './tunnel.js';

/**
 * How a view ended: by the host, by whoever left, by an `error` of the gateway or a refusal of it, by a link that is lost
 * to a session that can't be joined, by what can't be read, or by a fault of the page.
 * @typedef {{ by: 'host' } | { by: 'left' } | { by: 'error', code: number } | { by: 'refusal', code: number, status: number } | { by: 'unreachable' } | { by: 'unreadable' } | { by: 'fault' }} End
 */

/**
 * Who is told of a view: the stamp that is shown; how the link is; whether something new comes behind a key; that keys
 * may be lost, or were thrown away.
 * @typedef {object} Told
 * @property {(stamp: string) => void} shown
 * @property {(state: 'open' | 'unstable' | 'lost') => void} changed
 * @property {(isAnswered: boolean) => void} answered
 * @property {() => void} lost
 * @property {() => void} thrown
 */

// How long, in milliseconds, something new may take behind a key before the viewer is told that nothing answers.
const UNANSWERED = 3000;
const BETWEEN_LOOKS = 500;
// Where the clock went on by so much between two looks the machine has slept, and a link may be dead that looks open.
// Browsers look once a minute for a page that isn't seen.
const SLEPT = 20000;
const SLEPT_HIDDEN = 90000;
// A link that was open for so long begins anew with its tries.
const STEADY = 10000;
// Pixels to the inch, which the protocol has and the gateway passes over.
const RESOLUTION = 96;
// The statuses of a tunnel or a session that isn't there, and of one that is full.
const ABSENT = 516;
const FULL = 797;

/** A viewer's way: it reads, shows and acknowledges, and sends keys. */
export class View {
  #make;
  /** @type {import('./tunnel.js').Tunnel | null} */
  #tunnel = null;
  // Tunnels whose places aren't given back yet.
  #past = new Set();
  #display;
  #readOnly;
  #told;
  #outbox;
  #tries = new Rest(TRIES);
  // What the next tunnel opens or joins.
  /** @type {Record<string, string>} */
  #form = {};
  #wasOpen = false;
  #hasLeft = false;
  /** @type {End | null} */
  #end = null;
  // A size that was told while there was no link.
  #size = '';
  #sent = 0;
  #isAnswered = true;
  #looks = 0;
  #looked = { at: 0, isHidden: false };

  /**
   * @param {() => import('./tunnel.js').Tunnel} make  makes a tunnel for each connection
   * @param {{ draw(instruction: string[]): boolean, settle(): void, show(): void, renew(): void }} display
   * @param {boolean} readOnly
   * @param {Told} told
   */
  constructor(make, display, readOnly, told) {
    this.#make = make;
    this.#display = display;
    this.#readOnly = readOnly;
    this.#told = told;
    this.#outbox = new Outbox(told);
  }

  /** Whether keys are sent. */
  get types() {
    return !this.#readOnly;
  }

  /** The ID by which the session can be joined, or nothing where it isn't known. */
  get session() {
    return this.#form.id ?? '';
  }

  /** Shows what the viewer is given until the session is over or can't be reached, and answers how it ended. The form
   *  opens a session, or joins one by its ID. It is joined again where the link was lost and its ID is known.
   *  @returns {Promise<End>} */
  async run(form) {
    this.#form = form;
    this.#looked.at = Date.now();
    this.#looks = setInterval(() => this.#look(), BETWEEN_LOOKS);
    /** @type {End | null} */
    let end = null;
    while (!this.#hasLeft && (end = await this.#attend()) === null) {
      this.#told.changed('lost');
      await this.#tries.once();
    }
    clearInterval(this.#looks);
    if (end === null || this.#hasLeft) end = { by: 'left' };
    this.leave();
    return end;
  }

  // One connection, from its opening to its end. It answers how the view ended, or null where it can be tried again.
  /** @returns {Promise<End | null>} */
  async #attend() {
    const since = Date.now();
    let fault;
    try {
      for (const tunnel of this.#past) {
        await tunnel.giveBack();
        this.#past.delete(tunnel);
      }
      do fault = await this.#hear();
      while (fault instanceof NoWay && !this.#hasLeft);
    } catch (caught) {
      fault = caught;
    }
    const wasHere = this.#tunnel !== null;
    if (this.#tunnel !== null) this.#past.add(this.#tunnel);
    this.#tunnel = null;
    this.#outbox.use(null);
    if (this.#end !== null || this.#hasLeft) return this.#end;
    if (!this.#wasOpen || !(fault instanceof Refusal)) return endOf(fault);
    if (this.#form.id === undefined) return fault.mayPass ? { by: 'unreachable' } : endOf(fault);
    if (wasHere && Date.now() - since > STEADY) this.#tries.cut();
    return fault.mayPass || fault.code === FULL || (wasHere && fault.code === ABSENT) ? null : endOf(fault);
  }

  // Hears a tunnel until it is closed, and answers by which fault.
  #hear() {
    const tunnel = this.#make();
    return new Promise((closed) => {
      tunnel.connect(this.#form, {
        given: (instructions) => this.#play(instructions),
        changed: (state, fault) => {
          if (state === 'open' && this.#tunnel === null) this.#begin(tunnel);
          this.#outbox.turn();
          if (!this.#hasLeft && (state === 'open' || state === 'unstable')) this.#told.changed(state);
          if (state === 'closed') closed(fault);
        },
      });
    });
  }

  #begin(tunnel) {
    if (this.#hasLeft) return tunnel.disconnect();
    this.#tunnel = tunnel;
    if (tunnel.session !== '') this.#form = { id: tunnel.session, 'read-only': String(this.#readOnly) };
    this.#outbox.use(tunnel);
    if (this.#wasOpen) {
      this.#display.renew();
      if (this.types) this.#outbox.release();
      if (this.#size !== '') this.#outbox.add(this.#size);
    }
    this.#wasOpen = true;
    this.#size = '';
    this.#sent = 0;
  }

  /** Sends a key, but for a viewer who only looks on. */
  press(keysym, isPressed) {
    if (!this.types || !this.#wasOpen) return;
    this.#outbox.add(textOf('key', keysym, isPressed ? 1 : 0), true);
    if (isPressed && !isModifier(keysym) && this.#sent === 0 && this.#tunnel?.state === 'open') this.#sent = performance.now();
  }

  /** Gives the session a size, but for a viewer who only looks on. @param {import('./follow.js').Size} size */
  resize({ columns, rows }) {
    if (!this.types) return;
    const text = textOf('size', columns * CELL_WIDTH, rows * CELL_HEIGHT, RESOLUTION);
    if (this.#tunnel === null) this.#size = text;
    else this.#outbox.add(text);
  }

  /** Tries at once to come back to a link that is lost. */
  hurry() {
    this.#tries.cut();
  }

  /** Leaves, also while the page goes away. */
  leave() {
    this.#hasLeft = true;
    this.#tries.cut();
    this.#tunnel?.disconnect();
    this.#past.forEach((tunnel) => tunnel.disconnect());
  }

  // Draws instructions, shows them at their last sync and acknowledges it.
  #play(instructions) {
    let stamp = null;
    for (const instruction of instructions) {
      const [opcode, ...given] = instruction;
      if (opcode === 'sync') {
        stamp = given[0];
        this.#display.settle();
      } else if (opcode === 'disconnect') this.#end = { by: 'host' };
      else if (opcode === 'error') this.#end = { by: 'error', code: Number(given[1]) };
      else this.#display.draw(instruction);
    }
    if (stamp !== null) this.#show(stamp);
  }

  #show(stamp) {
    this.#display.show();
    this.#told.shown(stamp);
    this.#outbox.add(textOf('sync', stamp));
    this.#sent = 0;
    this.#answer(true);
  }

  #look() {
    const { at, isHidden } = this.#looked;
    this.#looked = { at: Date.now(), isHidden: globalThis.document?.hidden === true };
    if (this.#form.id !== undefined && this.#looked.at - at > (isHidden ? SLEPT_HIDDEN : SLEPT)) this.#tunnel?.cut();
    if (this.#sent !== 0 && performance.now() - this.#sent > UNANSWERED && this.#tunnel?.state === 'open') this.#answer(false);
  }

  #answer(isAnswered) {
    if (isAnswered !== this.#isAnswered) this.#told.answered(isAnswered);
    this.#isAnswered = isAnswered;
  }
}

/** How a fault ends a view. A frame that can't be read ends it, as all that isn't foreseen does.
 *  @returns {End} */
export function endOf(fault) {
  if (fault instanceof Refusal) return { by: 'refusal', code: fault.code, status: fault.status };
  if (fault instanceof Unreadable) return { by: 'unreadable' };
  console.error(fault);
  return { by: 'fault' };
}
"
}

// `/ways.js`.
fn ways_js() -> &'static str {
    "\
// Which way a page takes to the gateway: a WebSocket, or HTTP where that can't be had.

import { WebSocketTunnel } from './socket.js';
import { HttpTunnel } from './tunnel.js';

/**
 * What makes tunnels, one for each connection. Behind one whose WebSocket wasn't opened comes one over HTTP; and where
 * that one is opened, so that the gateway is there, and this page had no WebSocket before, all further ones are.
 * @param {{ socket: string, http: string }} addresses
 * @returns {() => import('./tunnel.js').Tunnel}
 */
export function waysTo({ socket, http }) {
  let hasSocket = false;
  let isOverHttp = false;
  let isTried = false;
  const overHttp = () => new HttpTunnel(http, () => { isOverHttp = !hasSocket; });
  const overSocket = () => new WebSocketTunnel(socket, (isThere) => {
    hasSocket ||= isThere;
    isTried = !isThere;
  });
  return () => {
    if (!isOverHttp && !isTried) return overSocket();
    isTried = false;
    return overHttp();
  };
}

/** The addresses beside a page, without the login that its own may have: no request can be made to one that has it. */
export function addressesBeside({ origin, href }) {
  const beside = (name) => origin + new URL(name, href).pathname;
  return { http: beside('tunnel'), socket: beside('websocket-tunnel').replace(/^http/, 'ws'), links: beside('links') };
}
"
}
