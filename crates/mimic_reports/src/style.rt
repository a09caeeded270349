//! The style of a page.

// How a page looks. It fetches nothing. Outcomes have a word and a colour. Each row, and each name in it, is set in its own
// direction, so that no text reorders another. Lists that aren't in sight are not laid out.
pub(crate) const STYLE: &str = r#":root {
  color-scheme: light dark;
  --paper: #ffffff;
  --sheet: #f6f7f9;
  --ink: #1c2128;
  --faint: #59636e;
  --line: #d8dee4;
  --failed: #c62833;
  --passed: #1a7f3c;
  --ignored: #6e7781;
  --measured: #0b62c4;
  --cut: #9a5b00;
}
@media (prefers-color-scheme: dark) {
  :root {
    --paper: #12161c;
    --sheet: #1b2027;
    --ink: #e6eaef;
    --faint: #9aa4b0;
    --line: #323a44;
    --failed: #ff7b78;
    --passed: #4cc26d;
    --ignored: #9aa4b0;
    --measured: #6cb1ff;
    --cut: #e3a341;
  }
}
.failed { --colour: var(--failed); }
.passed { --colour: var(--passed); }
.ignored { --colour: var(--ignored); }
.measured { --colour: var(--measured); }
.cut { --colour: var(--cut); }
[hidden] { display: none !important; }
body {
  max-width: 64rem;
  margin: 0 auto;
  padding: 2rem 1.25rem 4rem;
  background: var(--paper);
  color: var(--ink);
  font: 1rem/1.5 system-ui, sans-serif;
}
h1, h2, p, ul, ol, pre { margin: 0; padding: 0; }
ul, ol { list-style: none; }
h1 { display: flex; flex-wrap: wrap; gap: .75rem; align-items: center; font-size: 1.75rem; line-height: 1.2; }
h1 strong { padding: .2rem .7rem; border: 1px solid; border-radius: 2rem; color: var(--colour); font-size: .9rem; }
h2 { margin: 2.25rem 0 .5rem; font-size: 1.1rem; }
bdi, pre { overflow-wrap: anywhere; white-space: pre-wrap; }
header p { margin-top: .5rem; color: var(--faint); }
header p.cut { color: var(--colour); font-weight: 600; }
.bar { display: flex; gap: 2px; height: .75rem; margin: 1.25rem 0 .75rem; border-radius: .375rem; overflow: hidden; }
.bar i { background: var(--colour); }
.bar i[style$=" 0"] { display: none; }
.bar .cut { background: repeating-linear-gradient(45deg, var(--colour) 0 4px, transparent 4px 8px); }
.counts { display: flex; flex-wrap: wrap; gap: .25rem 1.5rem; }
.counts li::before {
  content: "";
  display: inline-block;
  width: .6rem;
  height: .6rem;
  margin-right: .4rem;
  border-radius: 50%;
  background: var(--colour);
}
nav { display: flex; flex-wrap: wrap; gap: .25rem 1.5rem; margin-top: 1rem; }
nav [data-rows="0"] { display: none; }
a { color: inherit; text-decoration-color: var(--line); }
form {
  position: sticky;
  top: 0;
  z-index: 1;
  display: flex;
  flex-wrap: wrap;
  gap: .5rem 1.25rem;
  align-items: center;
  margin-top: 1.5rem;
  padding: .75rem 0;
  border-bottom: 1px solid var(--line);
  background: var(--paper);
}
form label { white-space: nowrap; }
input[type="search"] {
  width: 16rem;
  max-width: 60vw;
  padding: .4rem .6rem;
  border: 1px solid var(--line);
  border-radius: .4rem;
  background: var(--sheet);
  color: inherit;
  font: inherit;
}
button {
  padding: .25rem .7rem;
  border: 1px solid var(--line);
  border-radius: .4rem;
  background: var(--sheet);
  color: inherit;
  font: inherit;
  font-size: .875rem;
  cursor: pointer;
}
button[aria-pressed="true"] { border-color: var(--measured); }
input[type="checkbox"] { accent-color: var(--colour); }
output { margin-left: auto; color: var(--faint); }
section:not(:has(li, .unlisted)), ol:not(:has(li)) { display: none; }
ol { content-visibility: auto; contain-intrinsic-size: auto 60rem; }
section, main li { scroll-margin-top: 7rem; }
main li { border-bottom: 1px solid var(--line); }
main li:target { background: var(--sheet); box-shadow: inset 0 0 0 .125rem var(--colour); }
main li:not(.failed), summary { display: flex; gap: .75rem; align-items: baseline; padding: .35rem 0; }
main a { flex: none; width: 4.25rem; color: var(--colour); font-size: .875rem; font-weight: 700; text-decoration: none; }
main a:hover, main a:focus-visible { text-decoration: underline; }
main bdi { min-width: 0; }
main bdi:last-of-type { flex: 1; }
main bdi.kind { flex: none; max-width: 40%; padding: 0 .5rem; border-radius: .3rem; background: var(--sheet); color: var(--faint); font-size: .875rem; }
main span { color: var(--faint); font-size: .875rem; font-variant-numeric: tabular-nums; white-space: nowrap; }
main .time { order: 1; min-width: 4.5rem; text-align: right; }
meter { flex: none; align-self: center; width: 30%; height: .75rem; border: 0; border-radius: .375rem; background: var(--sheet); }
meter::-webkit-meter-bar { height: .75rem; border: 0; border-radius: .375rem; background: var(--sheet); }
meter::-webkit-meter-optimum-value { border-radius: .375rem; background: var(--measured); }
meter::-moz-meter-bar { border-radius: .375rem; background: var(--measured); }
main .failed { margin: .5rem 0; padding: 0 1rem; border: 1px solid var(--line); border-left: .25rem solid var(--colour); border-radius: .4rem; }
summary { position: relative; padding: .55rem 1.5rem .55rem 0; cursor: pointer; }
summary::after { position: absolute; top: .55rem; right: 0; color: var(--faint); content: "\25b8"; content: "\25b8" / ""; }
[open] summary::after { content: "\25be"; content: "\25be" / ""; }
summary bdi:last-of-type { font-weight: 600; }
main pre, main li p { padding: .6rem 0 .8rem; border-top: 1px solid var(--line); }
main pre { font: .875rem/1.5 ui-monospace, monospace; unicode-bidi: plaintext; tab-size: 8; }
main li p { color: var(--faint); font-style: italic; }
.unlisted { padding: .35rem 0; color: var(--faint); }
@media (max-width: 40rem) {
  body { padding: 1.25rem .9rem 3rem; }
  form { position: static; }
  section, main li { scroll-margin-top: 1rem; }
  main li:not(.failed), summary { display: grid; grid-template-columns: 4.25rem 1fr auto; gap: .2rem .75rem; }
  main bdi.kind { grid-column: 2 / -1; justify-self: start; max-width: 100%; }
  main bdi:last-of-type { grid-column: 2; }
  main .time { grid-column: 3; order: 0; min-width: 0; }
  main span:not(.time), meter { grid-column: 2 / -1; width: 100%; }
}
@media print {
  form, nav { display: none !important; }
  ol { content-visibility: visible; }
}
"#;
