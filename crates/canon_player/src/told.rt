//! The results of typed calls as dynamic values, as they are printed.

ghost use Rattle.std.specs.Prelude.{◌≡◌, ◌∷◌, [], IfOk, List, map, string_bytes};
ghost use Rattle.canon_literals.specs.Literals.{Literal, list, literal_view, literals_of, literals_view, text, u32};
ghost use Rattle.canon_player.specs.Signatures.{outcome_literal};

use canon_types::OutOfMemory;
use canon_value::Val;
use std::alloc::Global;

/// Results of a typed call.
pub(crate) trait Told: Drop {
    // the literals of the values that they are
    ghost literals: { Self → List Literal };

    /// The values that they are.
    fn values(self, alloc: Global) -> Result<Vec<Val>, OutOfMemory>
    where
        Self: Sized,
        ensures { IfOk result (λ vs. literals_view vs.items ≡ literals self) };
}

impl Told for (u32,) {
    ghost literals = { λ p. u32 p.0 ∷ [] };

    fn values(self, alloc: Global) -> Result<Vec<Val>, OutOfMemory> {
        alone(alloc, Val::U32(self.0))
    }
}

impl Told for (String,) {
    ghost literals = { λ p. text (string_bytes p.0) ∷ [] };

    fn values(self, alloc: Global) -> Result<Vec<Val>, OutOfMemory> {
        let (told,) = self;
        alone(alloc, Val::String(told))
    }
}

impl Told for (Vec<u32>,) {
    ghost literals = { λ p. list (literals_of (map u32 p.0.items)) ∷ [] };

    fn values(self, alloc: Global) -> Result<Vec<Val>, OutOfMemory> {
        let numbers = each_number(alloc, &self.0)?;
        alone(alloc, Val::List(numbers))
    }
}

impl Told for (Result<u32, String>,) {
    ghost literals = { λ p. outcome_literal p.0 ∷ [] };

    fn values(self, alloc: Global) -> Result<Vec<Val>, OutOfMemory> {
        let (told,) = self;
        let outcome = outcome_of(alloc, told)?;
        alone(alloc, outcome)
    }
}

/// One value.
fn alone(alloc: Global, value: Val) -> Result<Vec<Val>, OutOfMemory>
    ensures { IfOk result (λ vs. vs.items ≡ value ∷ []) }
{
    let mut values = Vec::with_capacity(alloc, 1)?;
    values.push(value)?;
    Ok(values)
}

fn each_number(alloc: Global, numbers: &[u32]) -> Result<Vec<Val>, OutOfMemory>
    ensures { IfOk result (λ vs. literals_view vs.items ≡ map u32 numbers.now) }
{
    let mut values = Vec::with_capacity(alloc, numbers.len())?;
    for n in numbers {
        values.push(Val::U32(*n))?;
    }
    Ok(values)
}

fn outcome_of(alloc: Global, told: Result<u32, String>) -> Result<Val, OutOfMemory>
    ensures { IfOk result (λ v. literal_view v ≡ outcome_literal told) }
{
    match told {
        Ok(n) => {
            let n = Box::new(alloc, Val::U32(n))?;
            Ok(Val::Result(Ok(Some(n))))
        }
        Err(text) => {
            let text = Box::new(alloc, Val::String(text))?;
            Ok(Val::Result(Err(Some(text))))
        }
    }
}
