// The program script_check: the script check of standard input, by §14.1, §14.2 and §14.3.
#![tactic(auto)]

// Reads the input, and writes the verdict on it.
fn main(rt: HostRuntime) {
    let line = check_input::read_output(&mut rt.stdin());
    terminal::write_out(&rt, line.text());
}
