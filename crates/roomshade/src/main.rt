//! `roomshade`: a room sheet from standard input; for each piece a picture of its origins on standard output, `#` shut and
//! `.` free, or one line `refused NUMBER LAYER LINE`.

#![tactic(auto)]

mod reply;

use console::run;

fn main(rt: HostRuntime) -> anyhow::Result<()> {
    run(reply::reply, &rt)
}
