//! The filter of a page and its script.

// The filter's form. It is hidden until the script runs.
pub(crate) const FILTER: &str = r#"<form role="search" autocomplete="off" hidden>
<label>Filter <input type="search" placeholder="kind, name or message"></label>
<label class="failed"><input type="checkbox" value="failed" checked> failed</label>
<label class="passed"><input type="checkbox" value="passed" checked> passed</label>
<label class="ignored"><input type="checkbox" value="ignored" checked> ignored</label>
<label class="measured"><input type="checkbox" value="measured" checked> measured</label>
<button type="button">fold all</button>
<button type="button">unfold all</button>
<button type="button" aria-pressed="false">slowest first</button>
<output></output>
</form>
"#;

// The script shows the filter, and then the rows whose outcome is ticked, and whose kind, name and message have all the words that were
// typed, in small or capital letters. It keeps these in the page's address, and shows what that asks for. It also folds and unfolds all
// failures, and puts the rows of each section in the order of their times, and back: its lists have 500 rows each.
pub(crate) const SCRIPT: &str = r#"
"use strict";
const form = document.querySelector("form");
const [text, ...boxes] = form.querySelectorAll("input");
const [fold, unfold, sort] = form.querySelectorAll("button");
const shown = form.querySelector("output");
const parts = document.querySelectorAll("section, ol");
const rows = Array.from(document.querySelectorAll("main li"), (row) => ({ row, outcome: row.className, label: null }));

function label(row) {
  return Array.from(row.querySelectorAll("bdi, pre"), (part) => part.textContent).join(" ").toLowerCase();
}

function filter() {
  const words = text.value.toLowerCase().split(/\s+/);
  const outcomes = boxes.filter((box) => box.checked).map((box) => box.value);
  let count = 0;
  for (const one of rows) {
    one.label ??= label(one.row);
    const fits = outcomes.includes(one.outcome) && words.every((word) => one.label.includes(word));
    one.row.hidden = !fits;
    count += fits ? 1 : 0;
  }
  for (const part of parts) {
    part.hidden = part.querySelector("li") !== null && part.querySelector("li:not([hidden])") === null;
  }
  shown.textContent = `${count} of ${rows.length} shown`;
}

function keep() {
  const address = new URL(location);
  address.search = "";
  if (text.value.trim() !== "") {
    address.searchParams.set("filter", text.value);
  }
  for (const box of boxes.filter((box) => !box.checked)) {
    address.searchParams.append("without", box.value);
  }
  try {
    history.replaceState(history.state, "", address);
  } catch {
    // Some addresses can't be changed, such as that of a page in memory.
  }
}

function ask() {
  const asked = new URLSearchParams(location.search);
  const without = asked.getAll("without");
  text.value = asked.get("filter") ?? "";
  for (const box of boxes) {
    box.checked = !without.includes(box.value);
  }
  shown.textContent = `${rows.length} shown`;
  if (text.value !== "" || without.length > 0) {
    filter();
  }
}

function nanos(row) {
  return Number(row.querySelector(".time")?.dataset.nanos ?? -1);
}

const sections = Array.from(document.querySelectorAll("section"), (section) => {
  const inOrder = [...section.querySelectorAll("li")];
  return { lists: section.querySelectorAll("ol"), inOrder, slowestFirst: null };
});

function order() {
  const pressed = sort.getAttribute("aria-pressed") !== "true";
  sort.setAttribute("aria-pressed", pressed);
  for (const section of sections) {
    section.slowestFirst ??= section.inOrder.map((row) => [nanos(row), row]).sort(([a], [b]) => b - a).map(([, row]) => row);
    const ordered = pressed ? section.slowestFirst : section.inOrder;
    section.lists.forEach((list, at) => list.replaceChildren(...ordered.slice(at * 500, (at + 1) * 500)));
  }
}

function setOpen(whether) {
  for (const details of document.querySelectorAll("details")) {
    details.open = whether;
  }
}

form.addEventListener("input", () => {
  filter();
  keep();
});
form.addEventListener("submit", (event) => event.preventDefault());
fold.addEventListener("click", () => setOpen(false));
unfold.addEventListener("click", () => setOpen(true));
sort.addEventListener("click", order);
fold.hidden = unfold.hidden = document.querySelector("details") === null;
sort.hidden = document.querySelector("main .time") === null;
ask();
form.hidden = false;
"#;

// The script's digest, by which the page allows it and no other. If the script changes, `.ci/run` prints the new one.
pub(crate) const SCRIPT_DIGEST: &str = "sha256-cqfjaZmr/xN2aLSjBCwyh0FCwM7+XbJsLphZfpcEjPQ=";
