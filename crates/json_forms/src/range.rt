// Places of a text as JSON.
ghost use Rattle.std.specs.Prelude.{◌≡◌, false, IfOk};
ghost use Rattle.serde_json.specs.View.{view};
ghost use Rattle.serde_json.specs.Written.{has_float};
ghost use Rattle.spec_base.specs.Refusal.{Reads};
ghost use Rattle.json_forms.specs.Range.{position, position_range, pair_json, position_json, range_json};

use crate::form::{Form, Misfit};
use crate::pairs::pair;
use crate::shown::Shown;
use json_documents::Json;
use serde_json::Value;
use spec_base::{Position, PositionRange, Refusal};
use std::alloc::{AllocError, Global};

impl Form for Position {
    ghost form = { position };

    fn read(alloc: Global, value: &Json<'_, '_>) -> Result<Position, Refusal<Misfit>> {
        let Some((line, character)) = pair(value) else {
            return Err(Refusal::Is(Misfit));
        };
        let line = usize::read(alloc, &line)?;
        let character = usize::read(alloc, &character)?;
        Ok(Position { line, character })
    }
}

impl Form for PositionRange {
    ghost form = { position_range };

    fn read(alloc: Global, value: &Json<'_, '_>) -> Result<PositionRange, Refusal<Misfit>> {
        let Some((start, end)) = pair(value) else {
            return Err(Refusal::Is(Misfit));
        };
        let start = Position::read(alloc, &start)?;
        let end = Position::read(alloc, &end)?;
        Ok(PositionRange { start, end })
    }
}

// A list of two values that hold no float.
fn pair_json<T: Shown>(alloc: Global, first: &T, second: &T) -> Result<Value, AllocError>
    ensures value { IfOk result (λ v. view v ≡ pair_json (T.json first.now) (T.json second.now)) }
    ensures no_float { IfOk result (λ v. has_float (view v) ≡ false) }
{
    let mut values = Vec::new(alloc);
    values.push(first.to_json(alloc)?)?;
    values.push(second.to_json(alloc)?)?;
    Ok(Value::Array(values))
}

impl Shown for Position {
    ghost json = { position_json };

    fn to_json(&self, alloc: Global) -> Result<Value, AllocError> {
        pair_json(alloc, &self.line, &self.character)
    }
}

impl Shown for PositionRange {
    ghost json = { range_json };

    fn to_json(&self, alloc: Global) -> Result<Value, AllocError> {
        pair_json(alloc, &self.start, &self.end)
    }
}
