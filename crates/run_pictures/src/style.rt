//! What is the same in all pictures: how they open, and their colours, on white and on black.

/// The first words of a picture.
pub(crate) const OPENING: &str = "<svg xmlns='http://www.w3.org/2000/svg'";

/// What stands on white, the eight colours of tasks, on which dark words are read, what is drawn
/// otherwise on black, the dashes of a line, and the ground.
pub(crate) const STYLE: &str = "\
<style>text{font:12px monospace;fill:#222}.s{font-size:10px;fill:#5a6270}\
.b{fill:#fff}.l{fill:#000;pointer-events:none}.k{font-weight:bold}\
.t{fill:#c9d0d8}.v{fill:#9aa6b2}.i{fill:#c6cad0}.w{fill:#7d8793}\
.d{fill:#8e0000}.h{fill:#2b1a8f}.u{fill:#b0148e}.p{fill:url(#p)}.e{fill:#7a4b00}\
.x{fill:none;stroke:#c4001f;stroke-width:2}.n{fill:#1530c0}\
.g{stroke:#5a6270;stroke-opacity:.6;stroke-dasharray:2 3;pointer-events:none}\
.z{fill:transparent}.r{fill-opacity:.4}
.i,.c0,.c1,.c2,.c3,.c4,.c5,.c6,.c7{stroke:#000;stroke-opacity:.4;stroke-width:.5}
.c0{fill:#3ba394}.c1{fill:#ffee7e}.c2{fill:#e2577d}.c3{fill:#d1aaff}
.c4{fill:#cda65a}.c5{fill:#b5eac0}.c6{fill:#8e75d9}.c7{fill:#817f19}
.m{stroke:#1b6e43;stroke-opacity:1;stroke-width:2}
@media(prefers-color-scheme:dark){text{fill:#dde1e6}.s{fill:#a3acb6}\
.b{fill:#14171b}.l{fill:#000}.t{fill:#a9b3be}.v{fill:#7f8b98}\
.w{fill:#7b8896}.u{fill:#ff8ade}.e{fill:#f0b45a}.m{stroke:#5fd39a}\
.g{stroke:#a3acb6}.x{stroke:#ff6b7a}.n{fill:#8fa8ff}}</style>
<pattern id='p' width='7' height='9' patternUnits='userSpaceOnUse'>\
<rect class='e' width='4' height='9'/></pattern>
<rect class='b' width='100%' height='100%'/>
";

/// The colour of the bars of queues, on white and on black. It stands in those pictures alone that
/// have a row of a queue.
pub(crate) const QUEUE_STYLE: &str = "\
<style>.q{fill:#47856c;stroke:#000;stroke-opacity:.4;stroke-width:.5}</style>
";

/// How much of the bars is seen through the ground where a run is not known, and the dashes where
/// that begins, on white and on black. It stands in those pictures alone that show such places.
pub(crate) const UNKNOWN_STYLE: &str = "\
<style>.f{fill-opacity:.6;pointer-events:none}.y{stroke:#222;stroke-width:2;stroke-dasharray:6 4}
@media(prefers-color-scheme:dark){.y{stroke:#dde1e6}}</style>
";
