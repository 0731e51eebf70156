// Runs what no call shows by itself, on each limit at it and one beyond. Each line has its input before its output, so that another
// program can reckon it again (hosts/rust).
#![tactic(auto)]

mod cases;
mod reckon;

fn main(rt: HostRuntime) {
    let _ = println!(rt; "# refusals and clears");
    cases::answers(&rt);
    let _ = println!(rt; "# plans");
    cases::plans(&rt);
    let _ = println!(rt; "# moments");
    cases::moments(&rt);
    let _ = println!(rt; "# waits");
    cases::waits(&rt);
    let _ = println!(rt; "# division rounded up");
    cases::divisions(&rt);
}
