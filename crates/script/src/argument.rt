//! What stands behind a verb, and its readers.

ghost use Rattle.std.specs.Prelude.{◌≡◌, List, IfErr, IfOk, map};
ghost use Rattle.script.specs.Lines.{fields_of};
ghost use Rattle.script.specs.Grammar.{Place, handle_place, key_place, value_place};
ghost use Rattle.script.specs.Statements.{AreInRange, IsInRange, spelling_of};
ghost use Rattle.script.specs.Statements as spec;
ghost use Rattle.script.specs.Faults.{Faulty, StopsBy, Suits, reason_at};

use crate::fault::Reason;
use crate::fields::Fields;
use crate::parse_error::ParseError;
use arguments::{
    Folding, Key, Mapping, PairMapping, Test, folding_of, mapping_of, number_of, pair_mapping_of,
    test_of, value_of,
};
use std::alloc::Global;

/// What one field says in its place.
pub trait Argument: Drop {
    ghost use Rattle.script.specs.Grammar.{Place};
    ghost use Rattle.script.specs.Statements as spec;

    ghost place: { Place };

    ghost argument: { Self → spec.Argument };

    /// Reads the field.
    fn read(alloc: Global, field: &[u8]) -> Result<Self, ParseError>
        ensures ok { IfOk result (λ x. IsInRange (argument x) × (field.now ≡ spelling_of (argument x))) }
        ensures place { IfOk result (λ x. spec.place_of (argument x) ≡ place) }
        ensures err { IfErr result (StopsBy (λ reason. ¬ (Suits place field.now) × (reason ≡ reason_at place))) };
}

/// What all fields behind a verb say, from left to right.
pub trait Arguments {
    ghost use Rattle.std.specs.Prelude.{List};
    ghost use Rattle.script.specs.Grammar.{Place};
    ghost use Rattle.script.specs.Statements as spec;

    ghost places: { List Place };

    ghost arguments: { Self → List spec.Argument };

    /// Reads the fields.
    fn read(alloc: Global, fields: Fields<'_>) -> Result<Self, ParseError>
        ensures lawful { IfOk result (λ x. AreInRange (arguments x)) }
        ensures ok { IfOk result (λ x. fields_of fields.entry.0.now ≡ map spelling_of (arguments x)) }
        ensures err { IfErr result (StopsBy (Faulty places (fields_of fields.entry.0.now))) };
}

impl Argument for u32 {
    ghost use Rattle.script.specs.Grammar.{handle_place};
    ghost use Rattle.script.specs.Statements.{handle_argument};

    ghost place = { handle_place };

    ghost argument = { handle_argument };

    fn read(_alloc: Global, field: &[u8]) -> Result<u32, ParseError> {
        match number_of(field) {
            Some(handle) => Ok(handle),
            None => Err(ParseError::Fault(Reason::BadHandle)),
        }
    }
}

impl Argument for Key {
    ghost use Rattle.script.specs.Grammar.{key_place};
    ghost use Rattle.script.specs.Statements.{key_argument};

    ghost place = { key_place };

    ghost argument = { key_argument };

    fn read(alloc: Global, field: &[u8]) -> Result<Key, ParseError> {
        match Key::new(alloc, field)? {
            Some(key) => Ok(key),
            None => Err(ParseError::Fault(Reason::BadKey)),
        }
    }
}

impl Argument for i64 {
    ghost use Rattle.script.specs.Grammar.{value_place};
    ghost use Rattle.script.specs.Statements.{value_argument};

    ghost place = { value_place };

    ghost argument = { value_argument };

    fn read(_alloc: Global, field: &[u8]) -> Result<i64, ParseError> {
        match value_of(field) {
            Some(value) => Ok(value),
            None => Err(ParseError::Fault(Reason::BadValue)),
        }
    }
}

impl Argument for Test {
    ghost use Rattle.script.specs.Grammar.{test_place};
    ghost use Rattle.script.specs.Statements.{test_argument};

    ghost place = { test_place };

    ghost argument = { test_argument };

    fn read(alloc: Global, field: &[u8]) -> Result<Test, ParseError> {
        match test_of(alloc, field)? {
            Some(test) => Ok(test),
            None => Err(ParseError::Fault(Reason::BadTest)),
        }
    }
}

impl Argument for Mapping {
    ghost use Rattle.script.specs.Grammar.{map_place};
    ghost use Rattle.script.specs.Statements.{map_argument};

    ghost place = { map_place };

    ghost argument = { map_argument };

    fn read(_alloc: Global, field: &[u8]) -> Result<Mapping, ParseError> {
        match mapping_of(field) {
            Some(mapping) => Ok(mapping),
            None => Err(ParseError::Fault(Reason::BadMap)),
        }
    }
}

impl Argument for PairMapping {
    ghost use Rattle.script.specs.Grammar.{pair_map_place};
    ghost use Rattle.script.specs.Statements.{pair_map_argument};

    ghost place = { pair_map_place };

    ghost argument = { pair_map_argument };

    fn read(alloc: Global, field: &[u8]) -> Result<PairMapping, ParseError> {
        match pair_mapping_of(alloc, field)? {
            Some(mapping) => Ok(mapping),
            None => Err(ParseError::Fault(Reason::BadMap)),
        }
    }
}

impl Argument for Folding {
    ghost use Rattle.script.specs.Grammar.{fold_place};
    ghost use Rattle.script.specs.Statements.{fold_argument};

    ghost place = { fold_place };

    ghost argument = { fold_argument };

    fn read(_alloc: Global, field: &[u8]) -> Result<Folding, ParseError> {
        match folding_of(field) {
            Some(folding) => Ok(folding),
            None => Err(ParseError::Fault(Reason::BadFold)),
        }
    }
}

impl Arguments for () {
    ghost use Rattle.std.specs.Prelude.{[]};

    ghost places = { [] };

    ghost arguments = { λ _. [] };

    fn read(_alloc: Global, mut fields: Fields<'_>) -> Result<(), ParseError> {
        match fields.next() {
            Some(_) => Err(ParseError::Fault(Reason::ExtraField)),
            None => Ok(()),
        }
    }
}

impl<A: Argument, B: Arguments> Arguments for (A, B) {
    ghost use Rattle.std.specs.Prelude.{◌∷◌};

    ghost places = { A.place ∷ B.places };

    ghost arguments = { λ x. A.argument x.0 ∷ B.arguments x.1 };

    fn read(alloc: Global, mut fields: Fields<'_>) -> Result<(A, B), ParseError> {
        let Some(field) = fields.next() else {
            return Err(ParseError::Fault(Reason::MissingField));
        };
        let first = A::read(alloc, field)?;
        let rest = B::read(alloc, fields)?;
        Ok((first, rest))
    }
}
