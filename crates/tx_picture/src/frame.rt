//! What stands round the marks: the style, the lanes, and the legend.
ghost use Rattle.std.specs.Prelude.{◌<◌, ◌^◌};

use crate::places::{column_x, entry_y, lane_y};
use std::alloc::{AllocError, Global};
use std::fmt::Write;
use tx_watch::marks::Picture;

/// The least width, that of the legend.
const LEAST_WIDTH: u64 = 760;

/// The height of the legend.
const LEGEND: u64 = 78;

/// How marks look.
const STYLE: &str = "<style>
text{font:10px 'DejaVu Sans Mono',Menlo,Consolas,monospace;fill:#1b1b1b}
.paper{fill:#fff}
.lane{stroke:#d5d8dc}
.head,.name{font-size:12px;font-weight:bold}
.turn text,.arrow text{font-size:9px}
.turn text,.entry text{text-anchor:middle}
.turn .number{fill:#6b7178}
.turn rect,.key rect{stroke:#1b1b1b;stroke-opacity:.35}
.executed rect{fill:#cfe6d4}
.rejected rect{fill:#f7c56b}
.delayed rect{fill:#dcdfe3}
.aborted rect{fill:#f08a80}
.interrupted rect{fill:#c9b3e6}
.external rect{fill:#9fd0ee}
.attempt path,.arrow path,.key path{fill:none;stroke-width:1.6;stroke:#51606e}
.commit .end{stroke:#1c7c3c;stroke-width:2.4}
.abort .end{stroke:#c2281d;stroke-width:2.4}
.attempt text,.arrow.abort text{fill:#a11d13}
.arrow.reject path{stroke:#b26a00}
.arrow.reject .point{fill:#b26a00}
.arrow.reject text{fill:#8a5200}
.arrow.abort path{stroke:#c2281d}
.arrow.abort .point{fill:#c2281d}
.key text{fill:#1b1b1b}
.entry rect{fill:#fff;stroke:#51606e}
.entry.commit rect{fill:#cfe6d4}
.entry.abort rect{fill:#f7c9c4}
</style>
";

/// What the marks mean, from the upper edge of the legend on.
const KEYS: &str = "<g class='key executed'><rect x='8' y='8' width='20' height='14' rx='3'/>
<text x='34' y='19'>executed</text></g>
<g class='key rejected'><rect x='132' y='8' width='20' height='14' rx='3'/>
<text x='158' y='19'>rejected</text></g>
<g class='key delayed'><rect x='256' y='8' width='20' height='14' rx='3'/>
<text x='282' y='19'>delayed</text></g>
<g class='key aborted'><rect x='380' y='8' width='20' height='14' rx='3'/>
<text x='406' y='19'>aborted</text></g>
<g class='key interrupted'><rect x='504' y='8' width='20' height='14' rx='3'/>
<text x='530' y='19'>interrupted</text></g>
<g class='key external'><rect x='628' y='8' width='20' height='14' rx='3'/>
<text x='654' y='19'>external</text></g>
<g class='key commit'><path d='M8 44v-6h20'/><path class='end' d='M28 38l4 5l8 -10'/>
<text x='46' y='44'>attempt, commit</text></g>
<g class='key abort'><path d='M168 44v-6h20'/><path class='end' d='M188 34l9 9m0 -9l-9 9'/>
<text x='206' y='44'>abort, with its code</text></g>
<g class='key arrow reject'><path d='M372 44v-4h8'/><path class='point' d='M380 37v6l5 -3z'/>
<text x='392' y='44'>rejected by, with the line</text></g>
<g class='key arrow abort'><path d='M572 44v-4h8'/><path class='point' d='M580 37v6l5 -3z'/>
<text x='592' y='44'>aborts, with the line</text></g>
<text x='8' y='64'>history: S an instruction, C a commit, A an abort, T a stored block,
I a taken interruption; with the CPU</text>
</g>
</svg>
";

/// The upper edge of the legend: below the last row of entries.
fn legend_y(picture: &Picture) -> u64
    ensures { result < 2 ^ 40 }
{
    let rows = picture.entries.iter().map(|placed| placed.row).max();
    entry_y(picture.cpus, rows.unwrap_or(0)) + 24
}

/// The width of a picture of so many columns.
fn width_of(columns: u32) -> u64 {
    (column_x(columns) + 16).max(LEAST_WIDTH)
}

/// Adds the lanes of the CPUs, and that of the history.
fn add_lanes(text: &mut String, cpus: u32, width: u64) -> Result<(), AllocError> {
    for cpu in 0..cpus {
        let top = lane_y(cpu);
        let foot = top + 40;
        writeln!(text, "<path class='lane' d='M0 {top}H{width}'/>")?;
        writeln!(text, "<text class='name' x='8' y='{foot}'>CPU {cpu}</text>")?;
    }
    let top = lane_y(cpus);
    let foot = top + 24;
    writeln!(text, "<path class='lane' d='M0 {top}H{width}'/>")?;
    writeln!(text, "<text class='name' x='8' y='{foot}'>history</text>")
}

/// What stands before the marks; the run has so many turns and entries in all.
pub fn head(
    alloc: Global,
    picture: &Picture,
    columns: u32,
    recorded: (usize, usize),
) -> Result<String, AllocError> {
    let width = width_of(columns);
    let height = legend_y(picture) + LEGEND;
    let entries = picture.entries.len();
    let (turns, made) = recorded;
    let mut text = String::new(alloc);
    write!(
        text,
        "<svg xmlns='http://www.w3.org/2000/svg' width='{width}' height='{height}'"
    )?;
    writeln!(text, " viewBox='0 0 {width} {height}'>")?;
    text.push_str(STYLE)?;
    writeln!(
        text,
        "<rect class='paper' width='{width}' height='{height}'/>"
    )?;
    writeln!(
        text,
        "<text class='head' x='8' y='18'>{columns} of {turns} turns, {entries} of {made} entries</text>"
    )?;
    add_lanes(&mut text, picture.cpus, width)?;
    Ok(text)
}

/// What stands behind the marks.
pub fn legend(alloc: Global, picture: &Picture, columns: u32) -> Result<String, AllocError> {
    let top = legend_y(picture);
    let width = width_of(columns);
    let mut text = String::new(alloc);
    writeln!(
        text,
        "<g transform='translate(0 {top})'><path class='lane' d='M0 0H{width}'/>"
    )?;
    text.push_str(KEYS)?;
    Ok(text)
}
