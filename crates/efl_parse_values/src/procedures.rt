// Procedures, taken out of values.
ghost use Rattle.std.specs.Prelude.{◌≡◌, ◌∷◌, List, map, reverse, refl};
ghost use Rattle.efl_tree.specs.Syntax.{EflProcedure as Procedure};
ghost use Rattle.efl_tree.specs.Views.{procedure_of};
ghost use Rattle.efl_parse_values.specs.Values.{nothing, value, procedures};
ghost use Rattle.efl_parse_values.specs.Parts.{as_procedure, as_procedures};

use crate::lists::Item;
use crate::value::{ProcedureValue, Value};
use crate::words::NOWHERE;
use efl_tree::EflProcedure;
use std::alloc::Global;

impl Item for EflProcedure {
    ghost Plain = { List Procedure };

    ghost plain = { λ xs. map procedure_of xs };

    ghost more = { λ x rest. procedure_of x ∷ rest };

    ghost listed = { λ xs. procedures xs };

    ghost list_in = { as_procedures };

    ghost with_item = { λ v rest. as_procedure v ∷ rest };

    ghost plain_more = { λ x xs. refl };

    fn into_item(alloc: Global, part: Value) -> EflProcedure
        ensures { (rest : List Procedure) → procedure_of result ∷ rest ≡ as_procedure (value part) ∷ rest }
    {
        match part {
            Value::Procedure(ProcedureValue::Procedure(procedure)) => Box::into_inner(procedure),
            other => {
                drop(other);
                empty_procedure(alloc)
            }
        }
    }

    fn into_list(alloc: Global, part: Value) -> Vec<EflProcedure>
        ensures { map procedure_of (reverse result.items) ≡ as_procedures (value part) }
    {
        match part {
            Value::Procedure(ProcedureValue::Procedures(list)) => list,
            other => {
                drop(other);
                Vec::new(alloc)
            }
        }
    }

    fn list_value(list: Vec<EflProcedure>) -> Value
        ensures { value result ≡ procedures (map procedure_of (reverse list.items)) }
    {
        Value::Procedure(ProcedureValue::Procedures(list))
    }
}

fn empty_procedure(alloc: Global) -> EflProcedure
    ensures { procedure_of result ≡ as_procedure nothing }
{
    EflProcedure {
        result: None,
        name: None,
        formals: Vec::new(alloc),
        declarations: Vec::new(alloc),
        body: Vec::new(alloc),
        place: NOWHERE,
        finish: NOWHERE,
    }
}
