//! The page of plots, which `tools/pathd-tools plots-page --write` writes here from
//! `page/plots.html`.

ghost use Rattle.std.specs.Prelude.{◌≡◌};
ghost use Rattle.status_page.specs.Response.{plots, policy};

/// The page.
const PLOTS: &str = r##"<!doctype html>
<html lang="en">
<head>
<meta charset="utf-8">
<meta name="viewport" content="width=device-width, initial-scale=1">
<title>pathd</title>
<link rel="icon" href="data:,">
<style>
:root {
  color-scheme: light dark;
  --back: #f4f5f7; --card: #fff; --text: #1c2127; --faint: #646d78; --rule: #dde1e6;
  --line: #1f5fc4; --second: #9a6700; --good: #1a7f4b; --bad: #b3261e;
}
@media (prefers-color-scheme: dark) {
  :root {
    --back: #14171b; --card: #1d2127; --text: #e7eaee; --faint: #99a3ae; --rule: #343b44;
    --line: #74aaff; --second: #e0b04c; --good: #5ccb8f; --bad: #ff8a80;
  }
}
* { box-sizing: border-box; }
body { margin: 0 auto; max-width: 76rem; padding: 1rem; background: var(--back); color: var(--text); font: 15px/1.45 system-ui, sans-serif; }
h1 { margin: 0; font-size: 1.3rem; }
h2 { margin: 0; font-size: .85rem; font-weight: 400; color: var(--faint); }
header { display: flex; flex-wrap: wrap; gap: .2rem 1rem; align-items: baseline; }
header p { margin: 0; color: var(--faint); }
#state { margin: .8rem 0; padding: .6rem .8rem; border-left: 5px solid var(--faint); border-radius: 6px; background: var(--card); }
#state::first-letter { text-transform: uppercase; }
.good #state { border-color: var(--good); }
.bad #state, .away #state { border-color: var(--bad); }
.away main { opacity: .5; }
main { display: grid; gap: .8rem; grid-template-columns: repeat(auto-fill, minmax(min(100%, 17rem), 1fr)); }
section { padding: .6rem .8rem; border-radius: 6px; background: var(--card); }
section div { display: flex; justify-content: space-between; align-items: baseline; }
b, small, dd { font-variant-numeric: tabular-nums; }
b { font-size: 1.35rem; }
b + b { font-size: 1rem; color: var(--second); }
small, dt, summary { color: var(--faint); }
svg { display: block; width: 100%; height: 5rem; margin-top: .3rem; touch-action: pan-y; }
path { fill: none; stroke: var(--line); stroke-width: 1.5; vector-effect: non-scaling-stroke; }
.second { stroke: var(--second); }
.axis { stroke: var(--rule); stroke-width: 1; }
.mark { stroke: var(--faint); stroke-width: 1; stroke-dasharray: 2 3; }
dl { display: grid; grid-template-columns: auto 1fr; gap: 0 .8rem; margin: .3rem 0 0; font-size: .85rem; }
dd { margin: 0; }
footer, details { margin-top: .8rem; }
pre { overflow-x: auto; padding: .6rem .8rem; border-radius: 6px; background: var(--card); font-size: .8rem; }
</style>
</head>
<body>
<header><h1>pathd</h1><p id="about"></p></header>
<p id="state" role="status">the numbers are read</p>
<noscript><p>The plots need JavaScript. <a href="metrics">The numbers</a> don't.</p></noscript>
<main><section><h2></h2><dl></dl></section></main>
<footer><small>A plot has the last five minutes. A dotted line is a checkpoint that was completed, a gap a time without an answer.</small></footer>
<details><summary>All numbers</summary><pre></pre></details>
<script>
'use strict';

// The milliseconds between two reads, those after which an answer is given up, and those that a plot has.
const EVERY = 2000, PATIENCE = 1500, SPAN = 300000;
// How many answers in a row are missed until the server counts as away.
const AWAY = 2;
// The replies to lookups without sides, by which a gateway probes the server. They are no refusals.
const PROBED = 'pathd_refusals_total{code="41"}';
// The size of a plot, in units of its own.
const WIDTH = 300, HEIGHT = 80;

// What was read, the oldest first: the moment, and the numbers by their names, or null without an answer.
const samples = [];
// The sample that the pointer is at, or null, the moment of the last answer, and how many were missed since.
let chosen = null, answered = Date.now(), missed = 0;

const find = (name) => document.querySelector(name);
const clock = (at) => new Date(at).toLocaleTimeString();

// The numbers of a text in the exposition format, by names with their labels.
function read(text) {
  const lines = text.split('\n').filter((line) => line && line[0] !== '#');
  return new Map(lines.map((line) => {
    const end = line.lastIndexOf(' ');
    return [line.slice(0, end), Number(line.slice(end + 1))];
  }));
}

// The numbers whose names begin so, each with its name.
const named = (now, start) => [...now].filter(([name]) => name.startsWith(start));

const sum = (now, start) => named(now, start).reduce((all, [, number]) => all + number, 0);

// The value of the first label of a name.
const label = (name) => name.split('"')[1];

// The label of the number among these that is above 0, in words, and the number.
function current(now, start) {
  const [name, number] = named(now, start).find(([, it]) => it > 0) ?? ['"none"', 0];
  return [label(name).replaceAll('_', ' '), number];
}

// How much numbers have grown since the sample before, but for one of them; null where there is none, or the
// server was started since.
function growth(start, { now, before }, but) {
  const all = (numbers) => sum(numbers, start) - (numbers.get(but) ?? 0);
  const grown = before ? all(now) - all(before) : -1;
  return grown < 0 ? null : grown;
}

// What a plot shows of a sample: a number, its growth in a second, its growth by that of another one,
// and the milliseconds within which a part of what a histogram counts was done, as the end of a bucket.
const level = (name) => ({ now }) => now.get(name);
const rate = (start, but) => (sample) => {
  const grown = growth(start, sample, but);
  return grown === null ? null : grown / sample.seconds;
};
const share = (start, of) => (sample) => {
  const others = growth(of, sample);
  return others ? growth(start, sample) / others : null;
};
const within = (histogram, part) => (sample) => {
  const all = growth(`${histogram}_count`, sample);
  if (!all) return null;
  const buckets = named(sample.now, `${histogram}_bucket`);
  const [name] = buckets.find(([bucket]) => growth(bucket, sample) >= part * all);
  return 1000 * Math.min(1, Number(label(name).replace('+Inf', '1')));
};

const halves = (histogram) => [within(histogram, .5), within(histogram, .99)];

// A plot: its title, its unit, the one or two things that it shows, and its top where that is fixed.
const PLOTS = [
  ['Lookups', 'a second', [rate('pathd_replies_total{kind="found"}')]],
  ['Time of lookups: half, 99 of 100', 'ms, to 1,000', halves('pathd_lookup_seconds')],
  ['Commands that were committed', 'a second', [rate('pathd_commands_total')]],
  ['Time of commits: half, 99 of 100', 'ms, to 1,000', halves('pathd_commit_seconds')],
  ['Groups that were committed', 'a second', [rate('pathd_groups_total')]],
  ['Commands in a group', 'of 32', [share('pathd_commands_total', 'pathd_groups_total')], 32],
  ['Segments', '', [level('pathd_rows')]],
  ['Room for segments that is taken', '%', [({ now }) => 100 * now.get('pathd_rows_bytes') / now.get('pathd_rows_limit_bytes')], 100],
  ['Commands that await their commit', 'of 64', [level('pathd_commands_pending')], 64],
  ['Sessions', 'of 64', [level('pathd_sessions')], 64],
  ['Refusals', 'a second', [rate('pathd_refusals_total', PROBED)]],
  ['Call of the device under way', 'ms', [({ now }) => 1000 * sum(now, 'pathd_call_seconds')]],
];

// A number as a person reads it.
function shown(number) {
  if (number === null) return '\u2013';
  return (number < 100 ? Number(number.toPrecision(2)) : Math.round(number)).toLocaleString('en');
}

function lasting(seconds) {
  const [unit, length] = [['days', 86400], ['h', 3600], ['min', 60]].find(([, it]) => seconds >= 2 * it) ?? ['s', 1];
  return `${Math.floor(seconds / length)} ${unit}`;
}

// The least of .., 1, 2, 5, 10, 20, .. that is not below a number.
function ceiling(number) {
  const ten = 10 ** Math.floor(Math.log10(number || 1));
  return [1, 2, 5, 10].map((digit) => digit * ten).find((it) => it >= number);
}

// Where a moment is in a plot.
const left = (at) => (WIDTH * (1 - (samples.at(-1).at - at) / SPAN)).toFixed(1);

// What each sample shows; null without an answer.
const values = (show) => samples.map(({ at, now }, i) => {
  const last = samples[i - 1];
  return now && show({ now, before: last?.now, seconds: last && (at - last.at) / 1000 });
});

// The path through some values, with a gap at each null.
const path = (its, most) => its.map((value, i) => value === null ? ''
  : `${(its[i - 1] ?? null) === null ? 'M' : 'L'}${left(samples[i].at)} ${(HEIGHT * (1 - value / most)).toFixed(1)}`).join('');

// The vertical lines at some moments.
const marks = (moments) => moments.map(({ at }) => `M${left(at)} 0V${HEIGHT}`).join('');

// Chooses the sample that is nearest to the pointer.
function choose({ clientX, currentTarget }) {
  const { left: edge, width } = currentTarget.getBoundingClientRect();
  const at = samples.at(-1).at - SPAN * (1 - (clientX - edge) / width);
  chosen = samples.reduce((best, it) => Math.abs(it.at - at) < Math.abs(best.at - at) ? it : best);
  draw();
}

// Adds a plot to the page. The result draws it, with the values of one of the samples.
function added([title, unit, shows, fixed]) {
  const section = document.createElement('section');
  section.innerHTML = `<h2>${title}</h2>
<div><span>${'<b></b> '.repeat(shows.length)}<small>${unit}</small></span><small></small></div>
<svg viewBox="0 0 ${WIDTH} ${HEIGHT}" preserveAspectRatio="none" role="img" aria-label="${title}">
<path class="axis" d="M0 .5H${WIDTH}M0 ${HEIGHT - .5}H${WIDTH}"/><path class="mark"/><path class="mark"/><path/><path class="second"/></svg>`;
  find('main').append(section);
  const [, checkpoints, pointer, ...lines] = section.querySelectorAll('path');
  const svg = section.querySelector('svg');
  svg.onpointermove = choose;
  svg.onpointerleave = () => { chosen = null; draw(); };
  return (index) => {
    const all = shows.map(values);
    const most = fixed ?? ceiling(Math.max(...all.flat()));
    all.forEach((its, i) => {
      lines[i].setAttribute('d', path(its, most));
      section.querySelectorAll('b')[i].textContent = shown(its[index]);
    });
    section.querySelector('div > small').textContent = `to ${shown(most)}`;
    const completed = values((sample) => growth('pathd_checkpoints_total', sample));
    checkpoints.setAttribute('d', marks(samples.filter((_, i) => completed[i] > 0)));
    pointer.setAttribute('d', marks(chosen ? [chosen] : []));
  };
}

const plots = PLOTS.map(added);

// What the store is doing by the numbers of a sample: pairs of a word and a text.
function doing(now) {
  const [call, seconds] = current(now, 'pathd_call_seconds');
  return [
    ['Flusher', current(now, 'pathd_flusher_phase')[0]],
    ['Checkpointer', current(now, 'pathd_checkpointer_phase')[0]],
    ['Device', seconds < 1 ? call : `${call}, for ${lasting(seconds)}`],
    ['Full journal', now.get('pathd_journal_sealed') ? 'awaits its checkpoint' : 'none'],
    ['Checkpoints', `${shown(now.get('pathd_checkpoints_total'))}, the last is ${shown(now.get('pathd_epoch'))}`],
    ['Rows', `${shown(now.get('pathd_rows_bytes'))} of ${shown(now.get('pathd_rows_limit_bytes'))} B`],
  ];
}

// Draws the page with the values of the chosen sample, or of the last one.
function draw() {
  const index = chosen ? samples.indexOf(chosen) : samples.length - 1;
  const { at, now } = samples[index];
  plots.forEach((plot) => plot(index));
  find('h2').textContent = chosen ? `What the store was doing at ${clock(at)}` : 'What the store is doing';
  if (!now) return;
  find('dl').replaceChildren(...doing(now).flatMap((pair) => pair.map((text, i) => {
    const element = document.createElement(i ? 'dd' : 'dt');
    element.textContent = text;
    return element;
  })));
}

// Says how the server is.
function say(state, text) {
  document.body.className = state;
  document.title = state === 'good' ? 'pathd' : `pathd: ${text}`;
  find('#state').textContent = text;
}

async function ask(path) {
  const answer = await fetch(path, { cache: 'no-store', signal: AbortSignal.timeout(PATIENCE) });
  return [await answer.text(), answer.ok];
}

// Reads the numbers once, draws the page, and goes on in a while.
async function step() {
  const at = Date.now();
  let now = null;
  try {
    const [text] = await ask('metrics');
    const [reason, isReady] = await ask('readyz');
    now = read(text);
    answered = at;
    missed = 0;
    find('pre').textContent = text;
    const [[build]] = named(now, 'pathd_build_info');
    find('#about').textContent = `${label(build)} at ${location.host}, running for ${lasting(now.get('pathd_uptime_seconds'))}`;
    say(isReady ? 'good' : 'bad', isReady ? 'commands are accepted' : reason);
  } catch {
    if (++missed >= AWAY) say('away', `the server has not answered since ${clock(answered)}; this page goes on once it does`);
  }
  samples.push({ at, now });
  while (samples[0].at < at - SPAN) samples.shift();
  if (!samples.includes(chosen)) chosen = null;
  draw();
  setTimeout(step, EVERY);
}

step();
</script>
</body>
</html>
"##;

/// What a browser may load and run for it. The hashes are those of its script and of its style.
const POLICY: &str =
    "default-src 'none'; script-src 'sha256-Ec+/eLR+bj9eI94KrnMHR8s5KDBhOcL34P7FHTIx6FM='; style-src 'sha256-oJQnRmJOxfddD3oSFOsc3/+dd1j2GHjH3KRdIry138w='; img-src data:; connect-src 'self'; base-uri 'none'; form-action 'none'; frame-ancestors 'none'";

/// The page that draws the numbers of a server, and reads them from it again and again.
#[tactic(auto, unfolding(crate::specs::Response::plots))]
pub fn plots() -> &'static str
    ensures { result.now ≡ plots }
{
    PLOTS
}

/// The value of the field `Content-Security-Policy` with which the page is sent.
#[tactic(auto, unfolding(crate::specs::Response::policy))]
pub fn policy() -> &'static str
    ensures { result.now ≡ policy }
{
    POLICY
}
