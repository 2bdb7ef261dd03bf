// Reads a job from standard input and writes its answer to standard output: the three lines of the set, after those of its pieces if the job
// asks for them; the line of a claim that passes; or one refusal line.
//
// At most one byte over the job limit is kept in memory: a longer input is number 11 whatever it holds. If standard output fails, the
// program ends quietly.
#![tactic(auto)]

use lines::LINES_ROOM;

fn main(rt: HostRuntime) {
    let mut input = job::job_area();
    let n = streams::read_full(&mut rt.stdin(), &mut input);
    let mut area = [0u8; LINES_ROOM];
    let answer = job::print_job(&input[..n], &mut area);
    streams::write_all(&mut rt.stdout(), lines::written(&area, answer));
}
