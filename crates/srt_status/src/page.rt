//! The page for people.

/// One page with its style and its script: it asks for `/status.json` each second, and shows the routes with their
/// sessions. While a route is open it asks for `/history.json` twice a minute, and for `/events.json` while that section
/// is open. It needs no other file. The policy that it is served under (`response.rt`) names its style and its script by
/// their SHA-256.
pub const OVERVIEW: &str = r##"<!doctype html>
<html lang="en">
<head>
<meta charset="utf-8">
<meta name="viewport" content="width=device-width, initial-scale=1">
<meta name="color-scheme" content="light dark">
<title>srtgw</title>
<style>
:root {
  --page: #f6f7f8; --card: #ffffff; --line: #e2e5e9; --text: #1b1f24; --dim: #626b76;
  --in: #0b6bcb; --out: #12805c; --good: #12805c; --warn: #9a5b00; --bad: #b3261e;
  --warn-back: #fff3dc; --bad-back: #fde8e6; --good-back: #e3f4ec;
}
@media (prefers-color-scheme: dark) {
  :root {
    --page: #14171a; --card: #1c2024; --line: #2e343a; --text: #e6e9ec; --dim: #98a2ad;
    --in: #6cb2ff; --out: #58c99b; --good: #58c99b; --warn: #f0b35a; --bad: #ff8f86;
    --warn-back: #3a2d14; --bad-back: #42201d; --good-back: #173529;
  }
}
* { box-sizing: border-box; }
html { background: var(--page); color: var(--text); }
body {
  margin: 0 auto; max-width: 1180px; padding: 20px 20px 48px;
  font: 14px/1.45 system-ui, -apple-system, "Segoe UI", Roboto, "Helvetica Neue", Arial, sans-serif;
  font-variant-numeric: tabular-nums;
}
header { display: flex; flex-wrap: wrap; align-items: baseline; gap: 4px 12px; }
h1 { font-size: 20px; font-weight: 650; margin: 0; letter-spacing: -.01em; }
.dim { color: var(--dim); }
.pill { padding: 1px 9px; border-radius: 99px; font-size: 12.5px; font-weight: 600; }
.pill.good { color: var(--good); background: var(--good-back); }
.pill.bad { color: var(--bad); background: var(--bad-back); }
#gone { display: none; margin-top: 12px; padding: 10px 14px; border-radius: 8px; color: var(--bad); background: var(--bad-back); }
.late #gone { display: block; }
.late main, .late #sums, .late #attention { opacity: .45; }
#sums { display: grid; grid-template-columns: repeat(auto-fit, minmax(132px, 1fr)); gap: 8px; margin: 8px 0; }
#sums div {
  display: flex; align-items: baseline; gap: 2px 8px; padding: 3px 12px;
  background: var(--card); border: 1px solid var(--line); border-radius: 8px;
}
#sums b { font-size: 15px; font-weight: 600; white-space: nowrap; }
#sums span { color: var(--dim); font-size: 12.5px; }
#sums .bad b, #facts .bad { color: var(--bad); }
#sums .warn b { color: var(--warn); }
#attention { margin: 8px 0 0; padding: 5px 14px; border-radius: 8px; font-weight: 620; color: var(--dim); background: var(--card); }
#attention.good { color: var(--good); background: var(--good-back); }
#attention.warn { color: var(--warn); background: var(--warn-back); }
#attention.bad { color: var(--bad); background: var(--bad-back); }
#how { display: none; margin: 16px 0; padding: 12px 16px; background: var(--card); border: 1px solid var(--line); border-radius: 8px; }
.empty #how { display: block; }
#how code { overflow-wrap: anywhere; }
#facts { display: flex; flex-wrap: wrap; gap: 2px 18px; margin-top: 16px; color: var(--dim); font-size: 12.5px; }
#facts div { display: flex; gap: 5px; }
#facts b { font-weight: 600; }
#filter {
  width: 260px; margin-left: auto; padding: 4px 11px; font: inherit; color: inherit;
  background: var(--card); border: 1px solid var(--line); border-radius: 8px;
}
#filter:focus-visible, summary:focus-visible { outline: 2px solid var(--in); outline-offset: 1px; }
main { margin-top: 8px; }
#routes { display: grid; grid-template-columns: repeat(auto-fill, minmax(min(100%, 540px), 1fr)); gap: 3px 10px; align-items: start; }
.route { background: var(--card); border: 1px solid var(--line); border-radius: 6px; overflow: hidden; min-width: 0; }
.route[open], .route.warn, .route.bad { grid-column: 1 / -1; }
.route.warn { border-left: 4px solid var(--warn); }
.route.bad { border-left: 4px solid var(--bad); }
.route > summary {
  display: grid; grid-template-columns: 66px minmax(0, 1fr) 64px 82px 62px 62px; align-items: center; gap: 2px 8px;
  padding: 1px 10px; min-height: 24px; cursor: pointer; list-style: none;
}
.route.warn > summary, .route.bad > summary, .route[open] > summary {
  grid-template-columns: 66px minmax(0, 230px) minmax(0, 1fr) 64px 82px 62px 78px;
}
.route > summary::-webkit-details-marker { display: none; }
.route > summary:hover { background: var(--page); }
.badge {
  padding: 0 6px; border-radius: 5px; font-size: 11.5px; font-weight: 650; text-align: center; white-space: nowrap;
  color: var(--dim); background: var(--page);
}
.badge.good { color: var(--good); background: var(--good-back); }
.badge.warn { color: var(--warn); background: var(--warn-back); }
.badge.bad { color: var(--bad); background: var(--bad-back); }
.name { font-weight: 620; white-space: nowrap; overflow: hidden; text-overflow: ellipsis; }
.why { display: none; flex-wrap: wrap; gap: 2px 6px; min-width: 0; }
.route.warn .why, .route.bad .why, .route[open] .why { display: flex; }
.route > summary svg { width: 64px; height: 20px; }
.route > summary .players, .route > summary .loss { font-size: 12.5px; }
.route .grid .heads { padding: 6px 0; }
.in { color: var(--in); }
.out { color: var(--out); }
.grid { border-top: 1px solid var(--line); padding: 4px 14px 8px; }
.session, .heads {
  display: grid; gap: 2px 14px; align-items: center;
  grid-template-columns: minmax(190px, 1.7fr) 92px 128px 88px 104px 104px minmax(116px, 1fr);
}
.heads { color: var(--dim); font-size: 12.5px; }
.session { padding: 7px 0; border-top: 1px solid var(--line); }
.number { text-align: right; white-space: nowrap; }
.who { overflow-wrap: anywhere; }
.lock { display: inline-block; margin-right: 6px; color: var(--good); }
.lock[hidden] { display: none; }
.lock svg { width: 10px; height: 12px; }
.lock path { fill: currentColor; }
.who small, .session small { display: block; color: var(--dim); font-size: 12.5px; }
.marks { grid-column: 1 / -1; display: flex; flex-wrap: wrap; gap: 4px 6px; }
.marks:empty { display: none; }
#reported { margin: 0; }
.mark { padding: 1px 8px; border-radius: 5px; font-size: 12.5px; color: var(--dim); background: var(--page); }
.mark.warn { color: var(--warn); background: var(--warn-back); }
.mark.bad { color: var(--bad); background: var(--bad-back); }
svg { display: block; width: 128px; height: 28px; }
svg path { vector-effect: non-scaling-stroke; }
svg .line { fill: none; stroke: currentColor; stroke-width: 1.5; stroke-linejoin: round; }
svg .area { fill: currentColor; opacity: .14; }
.hour { padding: 4px 0; font-size: 12.5px; color: var(--dim); }
.hour svg { width: 100%; height: 64px; margin-top: 2px; color: var(--in); border-bottom: 1px solid var(--line); }
.hour .trip { fill: none; stroke: var(--dim); stroke-width: 1; }
.hour .losses { fill: none; stroke: var(--bad); stroke-width: 3; }
#idle > summary, #past > summary, #log > summary { padding: 8px 2px; cursor: pointer; color: var(--dim); }
#names { columns: 220px; column-gap: 20px; padding: 4px 2px; }
#names div { overflow-wrap: anywhere; padding: 1px 0; break-inside: avoid; }
.label { display: none; }
#events, #lines { font-size: 12.5px; padding: 0 2px; }
#lines div { overflow-wrap: anywhere; padding: 1px 0 1px 70px; text-indent: -70px; }
#lines span { display: inline-block; width: 70px; text-indent: 0; color: var(--dim); }
footer { margin-top: 20px; font-size: 12.5px; color: var(--dim); }
a { color: inherit; }
@media (max-width: 860px) {
  body { padding: 14px 12px 40px; }
  #sums { grid-template-columns: repeat(6, 1fr); gap: 4px; }
  #sums div { grid-column: span 2; padding: 1px 8px; }
  #sums div:nth-child(n + 4) { grid-column: span 3; }
  #filter { width: 100%; }
  .route > summary, .route.warn > summary, .route.bad > summary, .route[open] > summary {
    grid-template-columns: 66px minmax(0, 1fr) auto; gap: 1px 8px; padding: 3px 8px;
  }
  .route > summary .plot { display: none; }
  .route > summary .rate { grid-column: 3; grid-row: 1; }
  .route > summary .players { grid-column: 2; grid-row: 2; text-align: left; }
  .route > summary .loss { grid-column: 3; grid-row: 2; }
  .route > summary .number { white-space: nowrap; }
  .route > summary .loss, .route > summary .rate { text-align: right; }
  .why { grid-column: 1 / -1; grid-row: 3; }
  .heads { display: none; }
  .session { grid-template-columns: 1fr 1fr; gap: 6px 14px; padding: 10px 0; }
  .who { grid-column: 1 / -1; }
  .number { text-align: left; white-space: normal; }
  .label { display: block; color: var(--dim); font-size: 12.5px; }
  .plot { align-self: end; }
}
</style>
</head>
<body>
<header>
  <h1>srtgw</h1>
  <span class="dim" id="version"></span>
  <span class="pill" id="state">loading</span>
  <span class="dim" id="uptime"></span>
  <input id="filter" type="search" placeholder="Filter routes and callers" aria-label="Filter routes and callers" autocomplete="off">
</header>
<div id="gone" role="status"></div>
<div id="attention" role="status">Loading.</div>
<section id="sums" aria-label="Gateway"></section>
<section id="reported" class="marks" aria-label="Refused callers and changes of the configuration"></section>
<main>
  <div id="how">Nobody is connected. An encoder calls <code id="publish"></code><br>and a player <code id="play"></code>,
  with the port of the key <code>bind</code> and the name of a route.</div>
  <div id="routes"></div>
  <details id="idle"><summary></summary><div id="names"></div></details>
  <details id="past"><summary>Events since this page was opened</summary><div id="events"></div></details>
  <details id="log"><summary>Last events</summary><div id="lines"></div></details>
</main>
<section id="facts" aria-label="Machine"></section>
<footer>Bit rates are those of payloads, averaged over the last three seconds; the curves show the last minute,
and losses are counted over it. A route opens with a click, and then shows its last hour.
Also here: <a href="/metrics">metrics</a>, <a href="/status.json">status.json</a>, <a href="/events.json">events.json</a>,
<a href="/history.json">history.json</a>, <a href="/healthz">healthz</a>.</footer>
<script>
"use strict";
const SPAN = 60;
// Of the indexes that a run has, as many are few as are left when the log warns.
const INDEXES = 511, FEW_INDEXES = 111;
const byId = (id) => document.getElementById(id);
const seen = new Map();
const shown = new Map();
const known = new Map();
const EVENTS = 50, OFF_AIR = 600000, WAITS = 3;
const MINUTES = 60, WIDE = 600, HIGH = 64, HISTORY_WAITS = 30000;
let last = null, answered = Date.now(), idleKey = "";
// When the gateway started, as exactly as whole seconds tell it; the hour of each route, and when that was asked for.
let started = Infinity, uptime = 0, hours = new Map(), minute = 0, asked = 0;

function make(tag, name, text) {
  const node = document.createElement(tag);
  if (name) node.className = name;
  if (text !== undefined) node.textContent = text;
  return node;
}
function write(node, text) {
  if (node.textContent !== text) node.textContent = text;
}
function count(n) {
  return Math.round(n).toLocaleString("en").replace(/,/g, "\u202f");
}
function bits(n) {
  if (n === null) return "–";
  if (n >= 1e9) return (n / 1e9).toFixed(2) + " Gbit/s";
  if (n >= 1e6) return (n / 1e6).toFixed(n >= 1e8 ? 0 : 2) + " Mbit/s";
  return (n / 1e3).toFixed(0) + " kbit/s";
}
function size(n) {
  if (n === undefined) return "–";
  return n >= 1 << 30 ? (n / (1 << 30)).toFixed(2) + " GiB" : (n / (1 << 20)).toFixed(1) + " MiB";
}
function lasted(s) {
  const d = Math.floor(s / 86400), h = Math.floor(s / 3600) % 24, m = Math.floor(s / 60) % 60;
  if (d) return d + " d " + h + " h";
  if (h) return h + " h " + m + " min";
  return m ? m + " min " + Math.floor(s % 60) + " s" : Math.floor(s) + " s";
}
function millis(s) {
  return s === undefined ? "–" : (s * 1000).toFixed(s < 0.1 ? 1 : 0) + " ms";
}

// What a session counted, second by second: a session is known by its route, its ID and its caller.
function note(route, session) {
  const publishes = session.role === "publisher";
  const key = route.name + " " + session.session + " " + session.peer;
  let past = seen.get(key);
  if (!past) seen.set(key, past = { key, rows: [], rates: [] });
  const row = {
    at: session.open_seconds,
    bytes: publishes ? session.received_bytes_total : session.queued_bytes_total,
    lost: session.given_up_packets_total,
    resent: publishes ? session.repeated_packets_total : session.resent_packets_total,
    late: Math.min(session.late_packets_total || 0, session.given_up_packets_total),
    full: session.full_window_acks_total || 0,
    stray: session.misdirected_packets_total || 0,
    reports: publishes ? session.reported_lost_packets_total : session.naks_taken_total,
  };
  const before = past.rows[past.rows.length - 1];
  if (!before || row.at > before.at) {
    if (before) past.rates.push(Math.max(0, (row.bytes - before.bytes) * 8 / (row.at - before.at)));
    past.rows.push(row);
    if (past.rows.length > SPAN + 1) past.rows.shift();
    if (past.rates.length > SPAN) past.rates.shift();
  }
  past.now = row;
  past.live = last;
  return past;
}
function rate(past) {
  const rates = past.rates.slice(-3);
  return rates.length ? rates.reduce((a, b) => a + b, 0) / rates.length : null;
}
function recent(past, field) {
  return past.now[field] - past.rows[0][field];
}
function draw(svg, rates) {
  const top = Math.max(1, ...rates), step = 128 / (SPAN - 1);
  const points = rates.map((r, i) => [128 - (rates.length - 1 - i) * step, 26 - 23 * r / top]);
  const line = points.map((p, i) => (i ? "L" : "M") + p[0].toFixed(1) + " " + p[1].toFixed(1)).join("");
  const area = points.length ? line + "L128 28L" + points[0][0].toFixed(1) + " 28Z" : "";
  svg.firstChild.setAttribute("d", area);
  svg.lastChild.setAttribute("d", line);
}
function plot() {
  const svg = document.createElementNS("http://www.w3.org/2000/svg", "svg");
  svg.setAttribute("viewBox", "0 0 128 28");
  svg.setAttribute("aria-hidden", "true");
  for (const name of ["area", "line"]) {
    svg.append(document.createElementNS("http://www.w3.org/2000/svg", "path"));
    svg.lastChild.setAttribute("class", name);
  }
  return svg;
}

// An entry of a route's hour is the number of its minute, bytes, packets lost, and the round trip in microseconds.
function hourPlot() {
  const box = make("div", "hour"), svg = document.createElementNS("http://www.w3.org/2000/svg", "svg");
  box.append(make("span"), svg);
  svg.setAttribute("viewBox", "0 0 " + WIDE + " " + HIGH);
  svg.setAttribute("preserveAspectRatio", "none");
  svg.setAttribute("aria-hidden", "true");
  for (const name of ["area", "line", "trip", "losses"]) {
    svg.append(document.createElementNS("http://www.w3.org/2000/svg", "path"));
    svg.lastChild.setAttribute("class", name);
  }
  return box;
}
// The runs of minutes without a gap, each as points of a curve.
function runs(entries, x, y) {
  const found = [];
  entries.forEach((entry, at) => {
    if (!at || entries[at - 1][0] !== entry[0] - 1) found.push([]);
    found[found.length - 1].push(x(entry) + " " + y(entry).toFixed(1));
  });
  return found;
}
function drawHour(box, name) {
  if (box.asked === asked) return;
  box.asked = asked;
  const entries = (hours.get(name) || []).filter((entry) => entry && entry[0] >= minute - MINUTES);
  const trips = entries.filter((entry) => entry[3] !== null), rates = entries.map((entry) => entry[1] * 8 / 60);
  const top = Math.max(1, ...rates), far = Math.max(1, ...trips.map((entry) => entry[3]));
  const most = Math.max(1, ...entries.map((entry) => entry[2])), lost = entries.reduce((sum, entry) => sum + entry[2], 0);
  const step = WIDE / MINUTES, x = (entry) => ((entry[0] - minute + MINUTES + 0.5) * step).toFixed(1);
  const lines = runs(entries, x, (entry) => HIGH - 2 - (HIGH - 8) * entry[1] * 8 / 60 / top);
  const paths = [
    lines.map((run) => "M" + run[0].split(" ")[0] + " " + HIGH + "L" + run.join("L") + "V" + HIGH + "Z").join(""),
    lines.map((run) => "M" + run.join("L") + (run.length > 1 ? "" : "h1")).join(""),
    runs(trips, x, (entry) => HIGH - 2 - (HIGH - 8) * entry[3] / far).map((run) => "M" + run.join("L") + (run.length > 1 ? "" : "h1")).join(""),
    entries.filter((entry) => entry[2]).map((entry) => "M" + x(entry) + " " + HIGH + "v" + (-6 - 18 * entry[2] / most).toFixed(1)).join(""),
  ];
  paths.forEach((path, at) => box.lastChild.children[at].setAttribute("d", path));
  const trip = trips.length ? ", round trip (thin line) up to " + millis(far / 1e6) : "";
  const said = "up to " + bits(top) + " in a minute, " + count(lost) + " packets reported lost" + trip;
  write(box.firstChild, "Last hour: " + (entries.length ? said : "no minute is over yet"));
}

// How much a publisher's clock is off, where it is followed. It is followed by at most 1000 ppm.
const MOST_PPM = 950;
function clock(session) {
  const ppm = session.publisher_clock_drift_ppm;
  if (ppm === undefined) return "";
  return ppm ? ", clock " + count(Math.abs(ppm)) + " ppm " + (ppm > 0 ? "slow" : "fast") : ", clock right";
}
function marks(session, past) {
  const list = [];
  const add = (total, field, text) => {
    if (total) list.push([recent(past, field) ? "warn" : "", text]);
  };
  if (past.now.stray) list.push(["bad", "sends data but did not ask to publish: m=publish is missing"]);
  if (session.role === "publisher") {
    add(past.now.late, "late", count(past.now.late) + " packets came too late");
    add(past.now.full, "full", "window full, " + count(past.now.full) + " times");
    add(session.ahead_packets_total, "full", count(session.ahead_packets_total) + " packets ahead of the window");
  }
  if (Math.abs(session.publisher_clock_drift_ppm) >= MOST_PPM && session.open_seconds > 3600) {
    list.push(["bad", "its clock is further off than can be followed"]);
  }
  if (session.silent_seconds > 2) list.push(["warn", "silent for " + lasted(session.silent_seconds)]);
  return list;
}
// Callers that were refused, and datagrams dropped, by what stood against them, and changed configurations: those of which
// there are any.
const CAUSES = [
  ["lobby_refused_unknown_name_total", "refused: unknown name"],
  ["lobby_refused_no_name_total", "refused: no name"],
  ["lobby_refused_publish_from_total", "refused: not in publish_from"],
  ["lobby_refused_request_from_total", "refused: not in request_from"],
  ["lobby_refused_publish_key_total", "refused: publish_key missing or wrong"],
  ["lobby_refused_request_key_total", "refused: request_key missing or wrong"],
  ["refusals_ROGUE", "refused: 1004 ROGUE"],
  ["refusals_VERSION", "refused: 1008 VERSION"],
  ["refusals_UNSECURE", "refused: 1011 UNSECURE"],
  ["refusals_FILTER", "refused: 1014 FILTER"],
  ["refusals_GROUP", "refused: 1015 GROUP"],
  ["poller_not_allowed_datagrams_total", "datagrams dropped: address in no list"],
  ["config_changes_refused_total", "\u00d7 configuration not taken, see the log"],
  ["config_changes_taken_total", "\u00d7 configuration changed", true],
];
const ROUTE_CAUSES = [
  ["refusals_PEER", "refused: two publishers are open"],
  ["refusals_ROGUE", "refused: 1004 ROGUE"],
  ["refusals_BADSECRET", "refused: 1010 BADSECRET"],
  ["refusals_MESSAGEAPI", "refused: 1012 MESSAGEAPI"],
];
const LIMITS = [
  ["refused_sessions_total", "refused: no free session"],
  ["refused_reserved_total", "refused: the free sessions are reserved for publishers"],
  ["refused_sessions_per_address_total", "refused: sessions_per_address"],
];
const LIMITS_TOGETHER = [["refusals_RESOURCE", "refused: 1003 RESOURCE"]];
// A mark is a warning for a minute after its count grew, unless that is good news.
function showCauses(box, counts, causes) {
  const now = Date.now(), past = box.past || {};
  box.past = {};
  const list = causes.filter(([name]) => counts[name]).map(([name, text, good]) => {
    const [before, at] = past[name] || [box.said === undefined ? counts[name] : 0, 0];
    box.past[name] = [counts[name], counts[name] > before ? now : at];
    return [!good && now - box.past[name][1] < 1000 * SPAN ? "warn" : "", count(counts[name]) + " " + text];
  });
  const said = JSON.stringify(list);
  if (said === box.said) return;
  box.said = said;
  box.replaceChildren(...list.map((m) => make("span", "mark " + m[0], m[1])));
}
function cell(row, name, label) {
  const node = make("div", name);
  if (label) node.append(make("span", "label", label));
  node.append(make("span"), make("small"));
  row.append(node);
  return node;
}
// What stands before the caller of an encrypted session; its title names the cipher.
function lock() {
  const box = make("span", "lock"), svg = document.createElementNS("http://www.w3.org/2000/svg", "svg");
  box.setAttribute("role", "img");
  svg.setAttribute("viewBox", "0 0 10 12");
  svg.setAttribute("aria-hidden", "true");
  svg.append(document.createElementNS("http://www.w3.org/2000/svg", "path"));
  svg.firstChild.setAttribute("d", "M0 5h10v7H0zM1 5V4a4 4 0 0 1 8 0v1H7.5V4a2.5 2.5 0 0 0-5 0v1z");
  box.append(svg);
  return box;
}
function showLock(box, session) {
  const title = session.key_length_bytes ? "encrypted with AES-" + 8 * session.key_length_bytes : "";
  box.hidden = !title;
  if (box.title === title) return;
  box.title = title;
  box.setAttribute("aria-label", title);
}
function openSession() {
  const row = make("div", "session");
  const parts = {
    row,
    who: cell(row, "who"),
    rate: cell(row, "number", "Bit rate"),
    plot: row.appendChild(make("div", "plot")),
    trip: cell(row, "number", "Round trip"),
    lost: cell(row, "number", "Lost"),
    resent: cell(row, "number", "Sent again"),
    window: cell(row, "number", "Window"),
    marks: row.appendChild(make("div", "marks")),
    said: "",
  };
  parts.svg = parts.plot.appendChild(plot());
  parts.who.prepend(parts.lock = lock());
  return parts;
}
function fill(node, text, small) {
  write(node.lastChild.previousSibling, text);
  write(node.lastChild, small);
}
function showSession(parts, session, past) {
  const publishes = session.role === "publisher";
  const role = publishes ? (session.active ? "Publisher" : "Standby publisher") : "Subscriber";
  fill(parts.who, session.peer, role + ", open for " + lasted(session.open_seconds) + clock(session));
  showLock(parts.lock, session);
  fill(parts.rate, bits(rate(past)), "");
  parts.plot.className = "plot " + (publishes ? "in" : "out");
  draw(parts.svg, past.rates);
  const trip = session.round_trip_seconds, spread = session.round_trip_variance_seconds;
  fill(parts.trip, millis(trip), trip === undefined ? "not measured yet" : "± " + millis(spread));
  fill(parts.lost, count(past.now.lost), count(past.now.reports) + (publishes ? " reported" : " NAKs"));
  fill(parts.resent, count(past.now.resent), publishes ? "came again" : "sent again");
  if (publishes) {
    fill(parts.window, count(session.window_available_packets) + " free", "latency " + millis(session.latency_seconds));
  } else {
    fill(parts.window, count(session.in_flight_packets) + " in flight", "latency " + millis(session.latency_seconds));
  }
  const list = marks(session, past), said = JSON.stringify(list);
  if (said !== parts.said) {
    parts.said = said;
    parts.marks.replaceChildren(...list.map((m) => make("span", "mark " + m[0], m[1])));
  }
}

function openRoute(name) {
  const box = make("details", "route");
  const top = box.appendChild(make("summary"));
  const parts = { box, sessions: new Map() };
  parts.badge = top.appendChild(make("span", "badge"));
  top.appendChild(make("span", "name", name)).title = name;
  parts.why = top.appendChild(make("span", "why"));
  parts.plot = top.appendChild(make("span", "plot in"));
  parts.svg = parts.plot.appendChild(plot());
  parts.rate = top.appendChild(make("span", "number rate in"));
  parts.players = top.appendChild(make("span", "number players"));
  parts.loss = top.appendChild(make("span", "number loss"));
  parts.grid = box.appendChild(make("div", "grid"));
  parts.facts = parts.grid.appendChild(make("div", "dim"));
  parts.refused = parts.grid.appendChild(make("div", "marks"));
  parts.hour = parts.grid.appendChild(hourPlot());
  parts.heads = parts.grid.appendChild(make("div", "heads"));
  for (const text of ["Caller", "Bit rate", "Last minute", "Round trip", "Lost", "Sent again", "Window"]) {
    parts.heads.append(make("span", /Caller|minute/.test(text) ? "" : "number", text));
  }
  return parts;
}
// Puts a node behind another one, or first, unless it stands there.
function put(box, before, node) {
  const next = before ? before.nextSibling : box.firstChild;
  if (next !== node) box.insertBefore(node, next);
}
function order(a, b) {
  return (b.role === "publisher") - (a.role === "publisher") || (b.active || 0) - (a.active || 0) || a.peer.localeCompare(b.peer);
}
function clockTime(at) {
  return new Date(at).toLocaleTimeString("en-GB");
}
function tell(text) {
  const box = byId("events");
  box.prepend(make("div", "", clockTime(Date.now()) + "  " + text));
  if (box.children.length > EVENTS) box.lastChild.remove();
}
// What this page saw of a route: since when it is on the air or off it, and how often a standby took over.
function follow(route, isOnAir) {
  const first = !known.has(route.name);
  if (first) known.set(route.name, { isOnAir, since: null, overs: route.take_overs_total });
  const past = known.get(route.name);
  if (past.isOnAir !== isOnAir) {
    past.isOnAir = isOnAir;
    past.since = Date.now();
    tell(route.name + (isOnAir ? " is on the air" : " is off the air"));
  }
  if (route.take_overs_total > past.overs) tell(route.name + ": a standby took over");
  past.overs = route.take_overs_total;
  past.live = last;
  return past;
}
// A route's state: its badge, what needs somebody, the worst first, and its numbers.
function judge(route) {
  const sessions = route.sessions.slice().sort(order).map((session) => ({ session, past: note(route, session) }));
  const encoder = sessions.find((s) => s.session.role === "publisher" && s.session.active);
  const isStandby = sessions.some((s) => s.session.role === "publisher" && !s.session.active);
  const players = sessions.filter((s) => s.session.role !== "publisher");
  const past = follow(route, !!encoder), why = [];
  const add = (is, class_, text) => { if (is) why.push([class_, text]); };
  const strays = players.filter((s) => s.past.now.stray).length;
  const waits = players.length - strays;
  const eager = Math.max(0, ...players.map((s) => s.session.open_seconds));
  const isSilent = encoder && encoder.session.silent_seconds > 2;
  const isAbsent = !encoder && route.expected === 1;
  past.absent = isAbsent ? past.absent || Date.now() - 1000 * (route.absent_seconds || 0) : null;
  add(isAbsent, "bad", "expected on air: no encoder since " + clockTime(past.absent).slice(0, 5));
  add(strays, "bad", strays + (strays === 1 ? " encoder" : " encoders") + " without m=publish");
  add(!encoder && waits && eager > WAITS, "bad", "no encoder, " + waits + (waits === 1 ? " player waits" : " players wait"));
  add(isSilent, "bad", "encoder silent for " + lasted(isSilent ? encoder.session.silent_seconds : 0));
  add(!encoder && !isAbsent && past.since && Date.now() - past.since < OFF_AIR, "warn", "encoder gone since " + clockTime(past.since));
  const lost = encoder ? recent(encoder.past, "lost") : 0;
  const losers = players.filter((s) => recent(s.past, "lost"));
  add(lost, "bad", "encoder's line lost " + count(lost) + " packets");
  add(losers.length, "warn", losers.length + " of " + players.length + (players.length === 1 ? " player loses" : " players lose") + " packets");
  if (encoder) {
    add(recent(encoder.past, "late"), "warn", "packets come too late");
    add(recent(encoder.past, "full"), "warn", "window full");
    add(Math.abs(encoder.session.publisher_clock_drift_ppm) >= MOST_PPM && encoder.session.open_seconds > 3600, "bad", "encoder's clock off");
  }
  const lostByPlayers = losers.reduce((sum, s) => sum + recent(s.past, "lost"), 0);
  return {
    sessions, encoder, isStandby, players: waits, why, since: past.since, lost: lost + lostByPlayers,
    isOnAir: !!encoder && !isSilent, isWaiting: !encoder && waits > 0, isSilent, isAbsent,
    level: why.some((w) => w[0] === "bad") ? "bad" : why.length ? "warn" : "",
    hadStream: !!route.publishers.received_packets_total,
  };
}
function badge(view) {
  if (view.isSilent) return ["bad", "silent"];
  if (view.encoder) return ["good", view.isStandby ? "on air +1" : "on air"];
  if (view.isStandby) return ["warn", "standby"];
  if (view.sessions.length) return ["bad", "waiting"];
  if (view.isAbsent) return ["bad", "off air"];
  return ["", "off air"];
}
function showRoute(parts, route, view) {
  let into = 0, out = 0;
  const left = new Set(parts.sessions.keys());
  let place = parts.heads;
  for (const { session, past } of view.sessions) {
    if (session.role === "publisher") {
      if (session.active) into += rate(past) || 0;
    } else {
      out += rate(past) || 0;
    }
    if (!parts.box.open) continue;
    left.delete(past.key);
    let row = parts.sessions.get(past.key);
    if (!row) parts.sessions.set(past.key, row = openSession());
    put(parts.grid, place, row.row);
    place = row.row;
    showSession(row, session, past);
  }
  for (const key of left) {
    parts.sessions.get(key).row.remove();
    parts.sessions.delete(key);
  }
  const [good, text] = badge(view);
  parts.badge.className = "badge " + good;
  write(parts.badge, text);
  parts.badge.title = view.encoder && view.isStandby ? "on the air, with a standby encoder" : "";
  if (parts.box.className !== "route " + view.level) parts.box.className = "route " + view.level;
  const said = JSON.stringify(view.why);
  if (said !== parts.said) {
    parts.said = said;
    parts.why.replaceChildren(...view.why.map((m) => make("span", "mark " + m[0], m[1])));
  }
  draw(parts.svg, view.encoder ? view.encoder.past.rates : []);
  write(parts.rate, view.encoder ? bits(into) : "–");
  write(parts.players, view.players + (view.players === 1 ? " player" : " players"));
  write(parts.loss, count(view.lost) + " lost");
  if (parts.box.open) {
    const off = !view.encoder && view.since ? ", off the air since " + clockTime(view.since) : "";
    write(parts.facts, route.mode + ", " + route.sessions.length + " of " + route.allowed_sessions + " sessions, out " + bits(out) + off);
    const limits = route.refused_sessions_total === undefined ? LIMITS_TOGETHER : LIMITS;
    showCauses(parts.refused, route, ROUTE_CAUSES.concat(limits));
    parts.heads.hidden = !view.sessions.length;
    drawHour(parts.hour, route.name);
  }
  return [into, out];
}

const LEVELS = ["bad", "warn", ""];
function show(status) {
  const wanted = byId("filter").value.trim().toLowerCase();
  const fits = (route) => !wanted || route.name.toLowerCase().includes(wanted)
    || route.sessions.some((s) => s.peer.includes(wanted));
  let into = 0, out = 0, sessions = 0, onAir = 0, silent = 0, losing = 0;
  const idle = [], away = new Set(shown.keys()), lines = [];
  for (const route of status.routes) {
    sessions += route.sessions.length;
    const view = judge(route);
    onAir += view.isOnAir;
    silent += view.isSilent || view.isWaiting ? 1 : 0;
    losing += view.lost > 0;
    if (route.sessions.length || view.hadStream || view.level) lines.push({ route, view });
    else if (fits(route)) idle.push(route.name);
  }
  const rank = (it) => 2 * LEVELS.indexOf(it.view.level) + (it.route.sessions.length ? 0 : 1);
  lines.sort((a, b) => rank(a) - rank(b));
  let place = null;
  for (const { route, view } of lines) {
    away.delete(route.name);
    let parts = shown.get(route.name);
    if (!parts) shown.set(route.name, parts = openRoute(route.name));
    const [i, o] = showRoute(parts, route, view);
    into += i;
    out += o;
    parts.box.hidden = !fits(route);
    put(byId("routes"), place, parts.box);
    place = parts.box;
  }
  for (const name of away) {
    shown.get(name).box.remove();
    shown.delete(name);
  }
  for (const [key, past] of seen) if (past.live !== last) seen.delete(key);
  for (const [name, past] of known) if (past.live !== last) known.delete(name);
  const key = idle.join("\n");
  if (key !== idleKey || !byId("idle").dataset.drawn) {
    idleKey = key;
    byId("idle").dataset.drawn = "1";
    byId("idle").hidden = !idle.length;
    write(byId("idle").firstChild, count(idle.length) + (idle.length === 1 ? " route" : " routes") + " without a stream so far");
    byId("names").replaceChildren(...idle.map((name) => make("div", "", name)));
  }
  showAttention(status, lines, onAir);
  document.body.className = sessions ? "" : "empty";
  const left = INDEXES - status.used_indexes, drops = status.kernel_dropped_datagrams_total;
  showNumbers(byId("sums"), [
    ["On air", count(onAir)],
    ["Silent", count(silent), silent ? "bad" : ""],
    ["Losing", count(losing), losing ? "warn" : ""],
    ["In", bits(into)],
    ["Out", bits(out)],
  ]);
  showNumbers(byId("facts"), [
    ["Sessions", count(sessions)],
    ["Kernel drops", drops === undefined ? "–" : count(drops), drops > 0 ? "bad" : ""],
    ["Not sent", count(status.poller_lost_datagrams_total), status.poller_lost_datagrams_total > 0 ? "bad" : ""],
    ["Memory", size(status.resident_memory_bytes)],
    ["Indexes left", count(left), left <= FEW_INDEXES && status.config_changes_taken_total > 0 ? "bad" : ""],
  ]);
  showCauses(byId("reported"), status, CAUSES);
  write(byId("version"), status.version);
  write(byId("uptime"), "up for " + lasted(status.uptime_seconds));
}
// The first line: how many routes need somebody.
function showAttention(status, lines, onAir) {
  const sick = lines.filter((it) => it.view.level).length, all = status.routes.length;
  const level = sick ? lines[0].view.level : onAir ? "good" : "";
  const routes = (n) => count(n) + (n === 1 ? " route" : " routes");
  const well = onAir ? routes(onAir) + (onAir === 1 ? " is" : " are") + " on the air, and none needs attention" : "No route is on the air";
  byId("attention").className = level;
  write(byId("attention"), sick ? count(sick) + " of " + routes(all) + (sick === 1 ? " needs" : " need") + " attention" : well);
  document.title = (sick ? "(" + sick + ") " : "") + "srtgw";
}
function showNumbers(box, numbers) {
  while (box.children.length < numbers.length) {
    const node = make("div");
    node.append(make("b"), make("span"));
    box.append(node);
  }
  numbers.forEach(([label, value, level], at) => {
    const node = box.children[at];
    node.className = level || "";
    write(node.firstChild, value);
    write(node.lastChild, label);
  });
}
function state(good, text) {
  byId("state").className = "pill " + (good ? "good" : "bad");
  write(byId("state"), text);
}
function gone() {
  const away = Math.round((Date.now() - answered) / 1000);
  if (away < 3) return;
  document.body.classList.add("late");
  state(false, "no answer");
  write(byId("gone"), "The gateway hasn't answered for " + lasted(away) + ". What is shown is what it said last.");
}
async function ask(path) {
  const answer = await fetch(path, { cache: "no-store", signal: AbortSignal.timeout(2500) });
  if (!answer.ok) throw new Error(answer.status);
  return answer.json();
}
// The last lines of the gateway's log, the newest first, and the hour of each route: while they are to be seen.
async function lookBack() {
  if (byId("log").open) {
    const events = await ask("/events.json");
    byId("lines").replaceChildren(...events.reverse().map((event) => {
      const line = make("div");
      line.append(make("span", "", clockTime(started + 1000 * event.seconds)), event.text);
      return line;
    }));
  }
  if (Date.now() - asked < HISTORY_WAITS || !document.querySelector(".route[open]")) return;
  const found = await ask("/history.json");
  asked = Date.now();
  minute = found.minute;
  hours = new Map(found.routes.map((route) => [route.name, route.minutes]));
}
async function look() {
  try {
    last = await ask("/status.json");
    answered = Date.now();
    if (last.uptime_seconds < uptime) started = Infinity;
    uptime = last.uptime_seconds;
    started = Math.min(started, answered - 1000 * uptime);
    await lookBack();
    state(last.up === 1, last.up === 1 ? "running" : "stalled: no round for two seconds");
    show(last);
  } catch {
    gone();
  }
  setTimeout(look, 1000);
}
const HOST = "srt://" + location.hostname + ":9000?streamid=";
write(byId("publish"), HOST + "#!::r=NAME,m=publish");
write(byId("play"), HOST + "#!::r=NAME");
byId("filter").addEventListener("input", () => last && show(last));
byId("routes").addEventListener("toggle", () => last && show(last), true);
look();
</script>
</body>
</html>
"##;
