// A run of requests, read: each stands after its length, two bytes, high first.
ghost use Rattle.std.specs.Prelude.{◌≡◌, ◌<◌, length};
ghost use Rattle.format.specs.Requests.{requests_in};
ghost use Rattle.format.specs.Runs.{taken};
ghost use Rattle.editor.specs.Runs.{FirstIn, is_run, is_taken};

// The most requests of a run.
#[derive(Drop)]
struct Run {}

impl Run {
    const REQUESTS: usize = 64;
}

// The request that a run begins with stands from 2 to its end, which is told; none if the length is cut off, or reaches past the run's end.
pub(crate) fn first_request(run: &[u8]) -> Option<usize>
    requires { 0 < length run.now }
    ensures { FirstIn run.now result }
{
    if run.len() < 2 {
        return None;
    }
    let high = run[0] as usize;
    let low = run[1] as usize;
    let len = high * 256 + low;
    if run.len() - 2 < len {
        return None;
    }
    Some(2 + len)
}

// Is it a run of at most so many requests?
fn is_run(run: &[u8], most: usize) -> bool
    ensures { result ≡ is_run most (requests_in run.now) }
{
    let mut rest = run;
    let mut left = most;
    while 0 < rest.len() {
        if left == 0 {
            return false;
        }
        let Some(end) = first_request(rest) else {
            return false;
        };
        rest = &rest[end..];
        left -= 1;
    }
    true
}

// Is it a run of at most 64 requests and no more than there are answers?
pub(crate) fn is_taken(run: &[u8], answers: usize) -> bool
    ensures { result ≡ is_taken (taken answers run.now) }
{
    if answers < Run::REQUESTS {
        return is_run(run, answers);
    }
    is_run(run, Run::REQUESTS)
}
