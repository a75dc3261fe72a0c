// Runs collections of equations on the edges of their refusals, on worked lines and on a block of the most unknowns.
#![tactic(auto)]

mod lines;
mod refusals;
mod showing;
mod sixty_four;

fn main(rt: HostRuntime) -> anyhow::Result<()> {
    run(&rt)
}

fn run(rt: &HostRuntime) -> anyhow::Result<()> {
    refusals::run(rt)?;
    lines::run(rt)?;
    sixty_four::run(rt)
}
