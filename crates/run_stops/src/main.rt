// Runs the lists that standard input describes, stop by stop, with states that are saved and read back.
#![tactic(auto)]

fn main(rt: HostRuntime) {
    list_cases::run_cases(&rt);
}
