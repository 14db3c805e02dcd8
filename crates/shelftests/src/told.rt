// Answers by the numbers of their refusals.
use coverage::Refusal;

/// An answer, a refusal by its number.
pub fn told<T, F: Into<Refusal>>(answer: Result<T, F>) -> Result<T, u32> {
    answer.map_err(|fault| fault.into().number)
}
