// An answer as two numbers.
ghost use Rattle.std.specs.Prelude.{◌≡◌};
ghost use Rattle.calls.specs.Outcome.{number_of, value_in, number_told, value_told};

use super::Answer;

// Spreads an answer of numbers alone, which any number may refuse, into its number (RULES 6) and value.
pub fn spread(answer: Result<u64, u64>, value: &mut u64) -> u64
    ensures { (result ≡ number_told answer) × (value.new ≡ value_told answer) }
{
    let (number, given) = match answer {
        Ok(v) => (0, v),
        Err(number) => (number, 0),
    };
    *value = given;
    number
}

// The same of a call's answer.
pub fn spread_answer(answer: Answer, value: &mut u64) -> u64
    ensures { (result ≡ number_of answer) × (value.new ≡ value_in answer) }
{
    match answer {
        Ok(v) => spread(Ok(v), value),
        Err(r) => spread(Err(u64::from(r)), value),
    }
}
