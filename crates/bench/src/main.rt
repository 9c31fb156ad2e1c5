// The bench as a program: a script on standard input, what each line gives on standard output.
#![tactic(auto)]

fn main(rt: HostRuntime) {
    bench_core::run(&rt);
}
