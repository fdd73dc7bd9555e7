// Plays the rows of the question through a unit, and prints which pipes speak after each.
#![tactic(auto)]

use exam_table::sheet::answer_sheet;

fn main(rt: HostRuntime) -> anyhow::Result<()> {
    let text = answer_sheet(rt.alloc())?;
    rt.print(text.as_str())?;
    Ok(())
}
