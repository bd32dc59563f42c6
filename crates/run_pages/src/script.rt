//! The script of a page. Without it the page reads from top to bottom.

/// Opens the place at which the picture is clicked, steps through places by the keys left and
/// right, and marks the place that is open.
pub(crate) const SCRIPT: &str = r#"
'use strict';
(() => {
  const places = [...document.querySelectorAll('#trace > li')];
  const links = document.querySelectorAll('#places > a');
  const sheet = document.getElementById('sheet');
  // The steps of the picture, one for each place: of two runs those of the lower one.
  const steps = [...sheet.querySelectorAll('rect.z')];
  const lowest = steps.at(-1);
  const cells = steps.filter((step) => step.y.baseVal.value === lowest.y.baseVal.value);
  const mark = document.createElementNS('http://www.w3.org/2000/svg', 'rect');
  let open = -1;

  const draw = () => {
    const cell = cells[open] ?? cells.at(-1);
    if (!cell || !places[open]) return mark.remove();
    const { x, width } = cell;
    mark.id = 'mark';
    mark.setAttribute('x', x.baseVal.value + (cells[open] ? 0 : width.baseVal.value));
    mark.setAttribute('width', width.baseVal.value);
    mark.setAttribute('height', '100%');
    cell.parentNode.append(mark);
    const box = sheet.getBoundingClientRect();
    const { left, right } = mark.getBoundingClientRect();
    if (left < box.left || right > box.right) {
      sheet.scrollLeft += left - box.left - box.width / 2;
    }
  };

  const show = () => {
    const next = places.findIndex((place) => '#' + place.id === location.hash);
    for (const one of [places[open], links[open]]) one?.removeAttribute('aria-current');
    open = next;
    for (const one of [places[open], links[open]]) one?.setAttribute('aria-current', 'true');
    draw();
  };

  const go = (index) => {
    const place = places[Math.max(0, Math.min(index, places.length - 1))];
    if (!place) return;
    location.replace('#' + place.id);
    place.scrollIntoView();
  };

  sheet.addEventListener('click', (event) => {
    const ends = cells.map((cell) => cell.getBoundingClientRect().right);
    const index = ends.findIndex((end) => event.clientX < end);
    go(index < 0 ? cells.length : index);
  });

  addEventListener('keydown', (event) => {
    const way = { ArrowLeft: -1, ArrowRight: 1 }[event.key];
    if (!way || event.altKey || event.ctrlKey || event.metaKey || event.shiftKey) return;
    event.preventDefault();
    go(open + way);
  });

  addEventListener('hashchange', show);
  document.getElementById('keys').hidden = false;
  show();
})();
"#;

/// Its hash, which the first lines of a page name: a browser runs no other script there.
pub(crate) const SCRIPT_HASH: &str = "sha256-KOZTqTZl2HE9B+E+1ZIhq+igqw75WuzQ63E3L7aQ8w4=";
