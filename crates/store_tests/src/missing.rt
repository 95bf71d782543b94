use object_stream::first_missing;
use test_output::{TestError, head};

/// Writes the first missing number for each choice of objects that have landed.
pub fn tell_all(rt: &HostRuntime) -> Result<(), TestError> {
    head(
        rt,
        "Which of objects 1 to 5 have landed, and the first missing; 1 and 3 are checkpoints",
    )?;
    for choice in 0..32 {
        tell_choice(rt, choice)?;
    }
    Ok(())
}

// Object n has landed where 2 ^ (n - 1) is in the choice.
fn tell_choice(rt: &HostRuntime, choice: u32) -> Result<(), TestError> {
    let checkpoint = [false, true, false, true, false, false];
    let landed = [0, 1, 2, 4, 8, 16].map(|bit| choice & bit != 0);
    let missing = first_missing(&checkpoint, &landed);
    let [_, one, two, three, four, five] = landed;
    println!(rt; "  {:?}: {missing:?}", [one, two, three, four, five])?;
    Ok(())
}
