// What was answered, at the end of a line. An answer is told by a function that is given it, since the
// toolchain has no proof of one that takes it out of a result by `?` and can fail after that.
use crate::answer::Answer;
use test_output::TestError;

/// Tells an answer.
pub fn tell_found(rt: &HostRuntime, found: Result<Answer, TestError>) -> Result<(), TestError> {
    match found {
        Ok(answer) => tell(rt, answer),
        Err(error) => Err(error),
    }
}

fn tell(rt: &HostRuntime, answer: Answer) -> Result<(), TestError> {
    println!(rt; "{answer:?}")?;
    Ok(())
}

/// Tells how many there were of something, and what each of them answered.
pub fn tell_counted(
    rt: &HostRuntime,
    what: &str,
    found: Result<(u64, Answer), TestError>,
) -> Result<(), TestError> {
    match found {
        Ok((count, answer)) => tell_count(rt, what, count, answer),
        Err(error) => Err(error),
    }
}

fn tell_count(rt: &HostRuntime, what: &str, count: u64, answer: Answer) -> Result<(), TestError> {
    println!(rt; "{count} {what}, {answer:?}")?;
    Ok(())
}
