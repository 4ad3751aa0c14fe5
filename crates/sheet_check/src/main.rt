// Reads a sheet, and prints whether it is that of a Room square, or what is wrong with it.
#![tactic(auto)]

mod answer;
mod lines;

use answer::answer;
use input::source::fill;

// One function for every program would have to require that the answer it is given may be called, and public functions here
// require nothing.
fn main(rt: HostRuntime) -> anyhow::Result<()> {
    // The longest sheet and the longest command after it. No later byte can change the answer.
    let mut place = [0; 32902];
    let input = fill(&rt, &mut place)?;
    let text = answer(rt.alloc(), input)?;
    rt.print(text.as_str())?;
    Ok(())
}
