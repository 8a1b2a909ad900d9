//! A command line.

ghost use Rattle.std.specs.Prelude.{◌≡◌, ◌∷◌, ◌<◌, IfOk, IfErr};
ghost use Rattle.std.specs.Fmt.{decimal};
ghost use Rattle.script.specs.Grammar.{IsUnnamed, commands};
ghost use Rattle.script.specs.Lines.{fields_of};
ghost use Rattle.script.specs.Statements.{words_of, IsLawful};
ghost use Rattle.script.specs.Faults.{StatementFault, CommandFault, StopsBy};

use crate::argument::Arguments;
use crate::fault::Reason;
use crate::fields::Fields;
use crate::limits::MOST_CLIENTS;
use crate::parse_error::ParseError;
use crate::statement::Statement;
use arguments::number_of;
use std::alloc::Global;

/// The client and the statement of a line that is not skipped.
pub fn command_of(alloc: Global, line: &[u8]) -> Result<(u32, Statement), ParseError>
    ensures lawful { IfOk result (λ x. (x.0 < MOST_CLIENTS) × IsLawful x.1) }
    ensures ok { IfOk result (λ x. fields_of line.now ≡ decimal x.0 ∷ words_of x.1) }
    ensures err { IfErr result (StopsBy (CommandFault (fields_of line.now))) }
{
    let mut fields = Fields(line);
    let client = client_at(&mut fields)?;
    let statement = statement_at(alloc, fields)?;
    Ok((client, statement))
}

fn client_at(fields: &mut Fields<'_>) -> Result<u32, ParseError>
    ensures ok { IfOk result (λ n. (n < MOST_CLIENTS) × (fields_of fields.old.0.now ≡ decimal n ∷ fields_of fields.new.0.now)) }
    ensures err { IfErr result (StopsBy (CommandFault (fields_of fields.old.0.now))) }
{
    let Some(field) = fields.next() else {
        return Err(ParseError::Fault(Reason::MissingField));
    };
    match number_of(field) {
        Some(n) if n < MOST_CLIENTS => Ok(n),
        Some(_) => Err(ParseError::Fault(Reason::BadClient)),
        None => Err(ParseError::Fault(Reason::BadClient)),
    }
}

pub fn statement_at(alloc: Global, mut fields: Fields<'_>) -> Result<Statement, ParseError>
    ensures lawful { IfOk result IsLawful }
    ensures ok { IfOk result (λ s. words_of s ≡ fields_of fields.entry.0.now) }
    ensures err { IfErr result (StopsBy (StatementFault (fields_of fields.entry.0.now))) }
{
    match fields.next() {
        Some(verb) => match str::from_utf8(verb) {
            Ok(verb) => statement_of(alloc, verb, fields),
            Err(_) => Err(ParseError::Fault(Reason::UnknownVerb)),
        },
        None => Err(ParseError::Fault(Reason::MissingField)),
    }
}

/// Reads the arguments of a statement, in the order in which its fields are named, and makes it.
macro_rules! statement {
    ($alloc:ident, $fields:ident, $name:ident($a:ident)) => {{
        let ($a, ()) = Arguments::read($alloc, $fields)?;
        Ok(Statement::$name { $a })
    }};
    ($alloc:ident, $fields:ident, $name:ident($a:ident, $b:ident)) => {{
        let ($a, ($b, ())) = Arguments::read($alloc, $fields)?;
        Ok(Statement::$name { $a, $b })
    }};
    ($alloc:ident, $fields:ident, $name:ident($a:ident, $b:ident, $c:ident)) => {{
        let ($a, ($b, ($c, ()))) = Arguments::read($alloc, $fields)?;
        Ok(Statement::$name { $a, $b, $c })
    }};
    ($alloc:ident, $fields:ident, $name:ident($a:ident, $b:ident, $c:ident, $d:ident)) => {{
        let ($a, ($b, ($c, ($d, ())))) = Arguments::read($alloc, $fields)?;
        Ok(Statement::$name { $a, $b, $c, $d })
    }};
}

/// The statement of the verb with these arguments.
fn statement_of(alloc: Global, verb: &str, fields: Fields<'_>) -> Result<Statement, ParseError>
    ensures lawful { IfOk result IsLawful }
    ensures ok { IfOk result (λ s. words_of s ≡ verb.now ∷ fields_of fields.entry.0.now) }
    ensures err { IfErr result (StopsBy (StatementFault (verb.now ∷ fields_of fields.entry.0.now))) }
{
    match verb {
        "open" => statement!(alloc, fields, Open(handle)),
        "snap" => statement!(alloc, fields, Snap(handle, to)),
        "drop" => statement!(alloc, fields, Drop(handle)),
        "get" => statement!(alloc, fields, Get(handle, key)),
        "put" => statement!(alloc, fields, Put(handle, key, value)),
        "putifabsent" => statement!(alloc, fields, PutIfAbsent(handle, key, value)),
        "replace" => statement!(alloc, fields, Replace(handle, key, value)),
        "replaceif" => statement!(alloc, fields, ReplaceIf(handle, key, old, new)),
        "remove" => statement!(alloc, fields, Remove(handle, key)),
        "removeif" => statement!(alloc, fields, RemoveIf(handle, key, value)),
        "getorelse" => statement!(alloc, fields, GetOrElse(handle, key, value)),
        "size" => statement!(alloc, fields, Size(handle)),
        "clear" => statement!(alloc, fields, Clear(handle)),
        "list" => statement!(alloc, fields, Pairs(handle)),
        _ => question_of(alloc, verb, fields),
    }
}

/// The statement of a verb that is no command's: of a question about a whole map.
fn question_of(alloc: Global, verb: &str, fields: Fields<'_>) -> Result<Statement, ParseError>
    requires { IsUnnamed commands verb.now }
    ensures lawful { IfOk result IsLawful }
    ensures ok { IfOk result (λ s. words_of s ≡ verb.now ∷ fields_of fields.entry.0.now) }
    ensures err { IfErr result (StopsBy (StatementFault (verb.now ∷ fields_of fields.entry.0.now))) }
{
    match verb {
        "count" => statement!(alloc, fields, Count(handle, test)),
        "exists" => statement!(alloc, fields, Exists(handle, test)),
        "forall" => statement!(alloc, fields, ForAll(handle, test)),
        "find" => statement!(alloc, fields, Find(handle, test)),
        "filter" => statement!(alloc, fields, Filter(handle, test, to)),
        "mapvalues" => statement!(alloc, fields, MapValues(handle, map, to)),
        "mappairs" => statement!(alloc, fields, MapPairs(handle, map, to)),
        "fold" => statement!(alloc, fields, Fold(handle, folding)),
        _ => Err(ParseError::Fault(Reason::UnknownVerb)),
    }
}
