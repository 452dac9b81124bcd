ghost use Rattle.std.specs.Prelude.{◌≡◌, [], ◌∷◌, ◌++◌, IfOk, IfSome, string_bytes, codes};
ghost use Rattle.card_table.specs.Lines.{facts_line, facts_lines, refused_line, answer_line, answer_lines, card_text, least_text, least_pair_text, joined_text, cost_text};

use route::stop::{Facts, Refusal};
use std::alloc::{AllocError, Global};
use std::fmt::Display;

// The line of the stop at a place.
fn facts_line(heap: Global, place: usize, facts: &Facts) -> Result<String, AllocError>
    ensures { IfOk result (λ s. string_bytes s ≡ facts_line place facts.now) }
{
    format!(in heap; "stop {place} {facts}\n")
}

// A line for each stop.
// Kept: here and for the answers a loop that pushes; of what `try_collect` puts into a text from lines that want memory,
// the proof did not close (tried).
#[tactic(auto, using(crate::proofs::Growing::facts_more))]
pub fn facts_lines(heap: Global, facts: &[Facts]) -> Result<String, AllocError>
    ensures { IfOk result (λ s. string_bytes s ≡ facts_lines 1 facts.now) }
{
    let mut text = String::new(heap);
    for (i, stop) in facts.iter().enumerate() {
        let line = facts_line(heap, i + 1, stop)?;
        text.push_str(line.as_str())?;
    }
    Ok(text)
}

// The line of a refusal, which is told by a word.
// Kept: beside the like line of `reader`, since cards do not use that crate, for one format.
fn refused_line(heap: Global, word: &str, refusal: Refusal) -> Result<String, AllocError>
    ensures { IfOk result (λ s. string_bytes s ≡ refused_line word.now refusal) }
{
    format!(in heap; "{word} {refusal}\n")
}

// The line of a refused splice; an accepted one has none.
fn answer_line(heap: Global, word: &str, answer: Result<(), Refusal>) -> Result<String, AllocError>
    ensures { IfOk result (λ s. string_bytes s ≡ answer_line word.now answer) }
{
    match answer {
        Ok(()) => Ok(String::new(heap)),
        Err(refusal) => refused_line(heap, word, refusal),
    }
}

#[tactic(auto, using(crate::proofs::Growing::answers_more))]
fn answer_lines(
    heap: Global,
    word: &str,
    answers: &[Result<(), Refusal>],
) -> Result<String, AllocError>
    ensures { IfOk result (λ s. string_bytes s ≡ answer_lines word.now answers.now) }
{
    let mut text = String::new(heap);
    for answer in answers {
        let line = answer_line(heap, word, *answer)?;
        text.push_str(line.as_str())?;
    }
    Ok(text)
}

// The first line of a card.
pub fn name_line(heap: Global, name: &str) -> Result<String, AllocError>
    ensures { IfOk result (λ s. string_bytes s ≡ codes "card " ++ (name.now ++ (10 ∷ []))) }
{
    format!(in heap; "card {name}\n")
}

// What is printed of a card: its name, each refusal by a word, a line for each stop, and its last lines.
#[tactic(auto, using(crate::proofs::Growing::four))]
pub fn card_text(
    heap: Global,
    word: &str,
    name: &str,
    answers: &[Result<(), Refusal>],
    facts: &[Facts],
    last: &str,
) -> Result<String, AllocError>
    ensures { IfOk result (λ s. string_bytes s ≡ card_text word.now name.now answers.now facts.now last.now) }
{
    let mut text = name_line(heap, name)?;
    let refusals = answer_lines(heap, word, answers)?;
    let stops = facts_lines(heap, facts)?;
    text.push_str(refusals.as_str())?;
    text.push_str(stops.as_str())?;
    text.push_str(last)?;
    Ok(text)
}

// The last line of a card: its least cost, as that prints itself.
fn last_line<T: Display + Drop>(heap: Global, least: T) -> Result<String, AllocError>
    ensures { IfOk result (λ s. IfSome (T.Display.output least) (λ text. string_bytes s ≡ codes "least " ++ (text ++ (10 ∷ [])))) }
{
    format!(in heap; "least {least}\n")
}

// The last line of a card by money.
pub fn least_line(heap: Global, least: u64) -> Result<String, AllocError>
    ensures { IfOk result (λ s. string_bytes s ≡ least_text least) }
{
    last_line(heap, least)
}

// The last line of a card by promise: minutes late, then money.
pub fn least_pair_line(heap: Global, late: u64, least: u64) -> Result<String, AllocError>
    ensures { IfOk result (λ s. string_bytes s ≡ least_pair_text late least) }
{
    last_line(heap, format_args!("{late} {least}"))
}

// The last line of a join: its least cost, or why there is none.
pub fn joined_line(
    heap: Global,
    word: &str,
    least: Result<u64, Refusal>,
) -> Result<String, AllocError>
    ensures { IfOk result (λ s. string_bytes s ≡ joined_text word.now least) }
{
    match least {
        Ok(least) => least_line(heap, least),
        Err(refusal) => refused_line(heap, word, refusal),
    }
}

// The line of a curve's cost at a minute.
pub fn cost_line(heap: Global, minute: u16, cost: u64) -> Result<String, AllocError>
    ensures { IfOk result (λ s. string_bytes s ≡ cost_text minute cost) }
{
    format!(in heap; "minute {minute} cost {cost}\n")
}
