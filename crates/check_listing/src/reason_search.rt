// Looks for what a failing test found.
use super::reason::{Reason, YoungestText};
use checker::axiom::Axiom;
use checker::evaluated::Evaluated;
use checker::paths::{leads_to, place_fits};
use checker::position::Position;
use events::loads::loads_before;
use listing::access::AccessText;
use ordering::rule::OrderingRule;
use witness::record::Access;

/// The first reason that there is at a position; past a path's end there is none.
fn find<F: Fn(Access) -> Option<Reason>>(reason: F) -> Option<Reason>
    requires { F.IsAlwaysCallable reason }
{
    (0..4u8).find_map(|processor| {
        (0..16u8).find_map(|position| reason(Access {
            processor,
            position,
        }))
    })
}

/// Where the path of a processor goes wrong.
fn path_fault(evaluated: &Evaluated<'_, '_>, processor: usize) -> Option<Reason> {
    let code = evaluated.question.code(processor);
    let events = evaluated.events(processor);
    let breaks = (0..events.len()).find(|position| !place_fits(code, events, *position));
    if let Some(position) = breaks {
        return Some(Reason::PathBreaks {
            processor,
            position,
        });
    }
    let stops = leads_to(events, events.len()) as usize != code.len();
    stops.then_some(Reason::PathStops { processor })
}

/// What is wrong with the paths or the number of records.
fn path_reason(evaluated: &Evaluated<'_, '_>) -> Reason {
    let Evaluated {
        question,
        witness,
        ..
    } = evaluated;
    let paths = witness.processors();
    let processors = question.processors();
    if paths != processors {
        return Reason::PathCount { paths, processors };
    }
    let fault = (0..processors).find_map(|processor| path_fault(evaluated, processor));
    fault.unwrap_or_else(|| Reason::RecordCount {
        records: witness.sources().len(),
        loads: loads_before(question, witness, processors),
    })
}

/// What is wrong with the order.
fn order_reason(evaluated: &Evaluated<'_, '_>) -> Option<Reason> {
    let order = evaluated.witness.order();
    for (number, access) in order.iter().enumerate() {
        let text = AccessText(*access);
        if !evaluated.is_access(Position::from(*access)) {
            return Some(Reason::Stranger {
                number,
                access: text,
            });
        }
        if order[..number].contains(access) {
            return Some(Reason::Repeated {
                number,
                access: text,
            });
        }
    }
    find(|access| {
        let missing = !evaluated.is_ordered(Position::from(access));
        missing.then_some(Reason::Missing {
            access: AccessText(access),
        })
    })
}

/// The first load whose source is wrong.
fn source_reason(evaluated: &Evaluated<'_, '_>) -> Option<Reason> {
    find(|access| {
        let wrong = !evaluated.is_sourced(Position::from(access));
        wrong.then_some(Reason::WrongSource {
            load: AccessText(access),
        })
    })
}

/// The first access that a rule keeps behind another and that stands otherwise in the order.
fn kept_reason<R: OrderingRule>(
    rule: &R,
    evaluated: &Evaluated<'_, '_>,
    first: Access,
) -> Option<Reason> {
    let from = Position::from(first);
    let reached = evaluated.reached(rule, from);
    let stands_otherwise = |position: &u8| {
        !evaluated.is_kept_in_order(reached.as_slice(), from, usize::from(*position))
    };
    let position = (0..16u8).find(stands_otherwise)?;
    Some(Reason::WrongOrder {
        first: AccessText(first),
        second: AccessText(Access { position, ..first }),
    })
}

/// The first load whose source is not the youngest.
fn load_value_reason(evaluated: &Evaluated<'_, '_>) -> Option<Reason> {
    find(|access| {
        let load = Position::from(access);
        if evaluated.is_youngest(load) {
            return None;
        }
        let youngest = evaluated.youngest(load);
        Some(Reason::NotYoungest {
            load: AccessText(access),
            youngest: YoungestText(youngest.map(|number| evaluated.ordered(number))),
        })
    })
}

/// What is behind an axiom that fails, if it is found.
pub fn reason<R: OrderingRule>(
    rule: &R,
    evaluated: &Evaluated<'_, '_>,
    axiom: Axiom,
) -> Option<Reason> {
    match axiom {
        Axiom::Path => Some(path_reason(evaluated)),
        Axiom::Order => order_reason(evaluated),
        Axiom::Source => source_reason(evaluated),
        Axiom::InstOrder => find(|first| kept_reason(rule, evaluated, first)),
        Axiom::LoadValue => load_value_reason(evaluated),
    }
}
