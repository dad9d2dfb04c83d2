//! Where a push is, and how it ends.

ghost use Rattle.std.specs.Prelude.{◌≡◌};
ghost use Rattle.push_model.specs.Client.{in_order, at_once, stage_after, is_rest};
ghost use Rattle.push_model.specs.Causes.{ending_of};
ghost use Rattle.push_model.specs.Responding.{is_object};
ghost use Rattle.push_client.specs.Courses.{ends, ends_if};

use push_model::{Point, Stage};
use push_terms::Outcome;

/// Where a push is, and its first cause, if one came.
#[derive(Clone, Copy, Debug)]
pub(crate) struct Course {
    pub(crate) stage: Stage,
    pub(crate) cause: Option<Outcome>,
}

/// Whether no push goes on.
pub(crate) fn is_rest(stage: Stage) -> bool
    ensures { result ≡ is_rest stage }
{
    matches!(stage, Stage::Rest)
}

/// Whether requests pass on the channel of the object.
pub(crate) fn is_object(stage: Stage) -> bool
    ensures { result ≡ is_object stage }
{
    matches!(stage, Stage::Object)
}

/// Where a push goes that is closed in order.
fn in_order(stage: Stage) -> Stage
    ensures { result ≡ in_order stage }
{
    match stage {
        Stage::Link(Point::Due) => Stage::Over,
        Stage::SearchChannel(Point::Due) | Stage::Features(_) | Stage::ObjectChannel(Point::Due) =>
            Stage::LinkEnd(Point::Due),
        Stage::SearchChannel(Point::Asked) | Stage::Search => Stage::SearchEnd(Point::Due),
        Stage::ObjectChannel(Point::Asked) => Stage::ObjectEnd(Point::Due),
        _ => stage,
    }
}

/// Where a push goes whose link is broken.
fn at_once(stage: Stage) -> Stage
    ensures { result ≡ at_once stage }
{
    match stage {
        Stage::Link(Point::Due) => Stage::Over,
        Stage::Rest | Stage::Link(Point::Asked) | Stage::LinkEnd(_) | Stage::Over => stage,
        _ => Stage::LinkEnd(Point::Due),
    }
}

/// Where a push goes that ends with this outcome.
fn stage_after(outcome: Outcome, stage: Stage) -> Stage
    ensures { result ≡ stage_after (ending_of outcome) stage }
{
    match outcome {
        Outcome::Done
        | Outcome::Refused(_)
        | Outcome::NoService
        | Outcome::ShelfFault
        | Outcome::Cancelled => in_order(stage),
        Outcome::LinkLost
        | Outcome::RetryLimit
        | Outcome::PeerClosed
        | Outcome::PeerFault(_, _)
        | Outcome::ScriptEnded => at_once(stage),
    }
}

impl Course {
    /// The push ends with this outcome, where no cause came before; else its link is broken.
    pub(crate) fn end(&mut self, outcome: Outcome)
        ensures { self.new ≡ ends outcome self.old }
    {
        if self.cause.is_some() {
            self.stage = at_once(self.stage);
            return;
        }
        self.cause = Some(outcome);
        self.stage = stage_after(outcome, self.stage);
    }

    /// The same, where there is a cause.
    pub(crate) fn end_if(&mut self, found: Option<Outcome>)
        ensures { self.new ≡ ends_if found self.old }
    {
        if let Some(outcome) = found {
            self.end(outcome);
        }
    }
}
