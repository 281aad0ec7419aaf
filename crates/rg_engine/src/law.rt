ghost use Rattle.std.specs.Prelude.{List, All};
ghost use Rattle.rg_event.specs.Codec.{IsEventOf};
ghost use Rattle.rg_event.specs.Shapes.{Shape};
ghost use Rattle.rg_event.specs.declared.event.Event.{Event};
ghost use Rattle.rg_event.specs.declared.schema.Field.{Field};
ghost use Rattle.rg_metric.specs.Queries.{Asked};
ghost use Rattle.rg_plan.specs.declared.node.AggNode.{AggNode};
ghost use Rattle.rg_plan.specs.Plans.{Tasks, plan_for};
ghost use Rattle.rg_query.specs.Legal.{IsLegalQuery};
ghost use Rattle.rg_engine.specs.Feeding.{Serves, IsFed, IsServed, IsLasting};

/// The columns of a schema serve the plan of queries that are legal over it, and so do events of those
/// columns.
#[tactic(auto, using(crate::proofs::Serving::serves_from, crate::proofs::Legal::serves))]
pub fn law_serves()
    // Columns serve a plan where they serve each of its aggregators, and each of its windows that ends lasts.
    ensures parts { (fields : List Field) (plan : Tasks) → All (λ (node : AggNode). IsServed fields node.agg) plan.aggs →
        All IsLasting plan.windows → Serves fields plan }

    // Queries that are legal over a schema are served by its events.
    ensures legal { (shape : Shape) (queries : List Asked) → All (IsLegalQuery shape) queries → Serves shape.fields (plan_for queries) }
    ensures fed { (shape : Shape) (queries : List Asked) (events : List Event) → All (IsLegalQuery shape) queries →
        All (IsEventOf shape.fields) events → IsFed (plan_for queries) events }
{}
