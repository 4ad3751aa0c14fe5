// Reads a group and a claimed starter, and prints the movement card of every team.
#![tactic(auto)]

mod answer;
mod lines;

use answer::answer;
use input::source::fill;

// One function for every program would have to require that the answer it is given may be called, and public functions here
// require nothing.
fn main(rt: HostRuntime) -> anyhow::Result<()> {
    // One byte more than an input may have, so that a longer one is seen.
    let mut place = [0; 4097];
    let input = fill(&rt, &mut place)?;
    let text = answer(rt.alloc(), input)?;
    rt.print(text.as_str())?;
    Ok(())
}
