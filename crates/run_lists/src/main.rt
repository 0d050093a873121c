// Runs the lists that standard input describes.
#![tactic(auto)]

fn main(rt: HostRuntime) {
    list_cases::run_cases(&rt);
}
